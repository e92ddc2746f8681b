use crate::{
    Directive, Head, Note, Operation, Rest, Unknown, add_statement, bytes_at, directive_of,
    operands_of, read_instruction,
};
use arrayvec::ArrayVec;
use asm_source::{Item, Operand, Rule};
use asm_syntax::mnemonic;
use mb_decode::Instr;
use mb_lex::{Token, lex_start};
use op_table::Op;
use std::alloc::Global;

/// The first token of a line, and the operands behind it.
fn split(line: &[u8]) -> Option<(Token, ArrayVec<Token, 40>)> {
    if line.len() > 0x40_0000 {
        return None;
    }
    let lexed = lex_start(line);
    let first = lexed.tokens.get(0)?;
    let mut others: ArrayVec<Token, 40> = ArrayVec::new();
    for k in 1..lexed.tokens.len() {
        if let Some(token) = lexed.tokens.get(k) {
            others.try_push(token).ok()?;
        }
    }
    if others.len() > 40 {
        return None;
    }
    Some((first, operands_of(line, others.as_slice())?))
}

/// What a line with an instruction is.
fn read(line: &[u8], after_imm: bool) -> Option<Operation> {
    let (first, operands) = split(line)?;
    let named = mnemonic(bytes_at(line, first))?;
    if operands.len() > 40 {
        return None;
    }
    read_instruction(&Unknown, after_imm, named, line, operands.as_slice())
}

fn instr(op: Op, rd: u8, ra: u8, rb: u8, imm: u16, flags: u8) -> Instr {
    Instr {
        op,
        rd,
        ra,
        rb,
        imm,
        flags,
    }
}

/// Expected: the fields and the value of each instruction.
#[test]
#[rattlefmt::skip]
fn operands_go_to_their_fields(rt: HostRuntime) {
    for (line, after_imm, instr, value) in [
        ("add r3, r4, r5", false, instr(Op::Add, 3, 4, 5, 0, 0), None),
        ("addik r3, r0, -5", false, instr(Op::Addik, 3, 0, 0, 0, 0), Some(Operand::Number(-5))),
        ("la r3,r4,0x12345", false, instr(Op::Addik, 3, 4, 0, 0, 0), Some(Operand::Number(0x12345))),
        ("addik r3, r0, 65535", true, instr(Op::Addik, 3, 0, 0, 0, 0), Some(Operand::Number(65535))),
        ("addik r31, r0, -32768", true, instr(Op::Addik, 31, 0, 0, 0, 0), Some(Operand::Number(-32768))),
        ("bri rfsl16", false, instr(Op::Bri, 0, 0, 0, 0, 0), Some(Operand::Label(0))),
        ("bslli r3, r4, 31", false, instr(Op::Bslli, 3, 4, 0, 31, 0), None),
        ("imm 0xBEEF", false, instr(Op::Imm, 0, 0, 0, 0xBEEF, 0), None),
        ("imm 65535", false, instr(Op::Imm, 0, 0, 0, 65535, 0), None),
        ("imm 0", false, instr(Op::Imm, 0, 0, 0, 0, 0), None),
        ("mbar 2", false, instr(Op::Mbar, 0, 0, 0, 2, 0), None),
        ("mbar 31", false, instr(Op::Mbar, 0, 0, 0, 31, 0), None),
        ("mfs r6, redr", false, instr(Op::MfsRedr, 6, 0, 0, 0, 0), None),
        ("mts rmsr, r6", false, instr(Op::Mts, 0, 6, 0, 0, 0), None),
        ("msrset r3, 32767", false, instr(Op::Msrset, 3, 0, 0, 32767, 0), None),
        ("nop", false, instr(Op::Or, 0, 0, 0, 0, 0), None),
        ("tncaput r3, rfsl15", false, instr(Op::Put, 0, 3, 0, 15, 30), None),
        ("tput rfsl3", false, instr(Op::Put, 0, 0, 0, 3, 4), None),
        ("tputd r5", false, instr(Op::Putd, 0, 0, 5, 0, 4), None),
        ("eget r3, rfsl1", false, instr(Op::Get, 3, 0, 0, 1, 1), None),
    ] {
        let expected = Operation { instr, value, fault: None };
        let found = read(line.as_bytes(), after_imm);
        assert!(rt; found == Some(expected), "{line}: {found:?}");
    }
    for (line, after_imm) in [
        ("addik r3, r0", false), ("addik r3, r0,", false), ("addik r3 r0, 5", false), ("addik r3, r0, 5, 6", false), ("addik , r0, 5", false),
        ("add r3, r4, 5", false), ("bri r5", false), ("bri rmsr", false), ("bri rfsl0", false), ("addik r3, r0, x", true), ("imm x", false),
        ("put rfsl3", false), ("tput", false), ("mts rpc, r6", false), ("nop r0", false), ("bslli r3, r4, x", false), ("lwi r3, r03, 0", false), ("lwi r3, r32, 0", false),
    ] {
        assert!(rt; read(line.as_bytes(), after_imm).is_none(), "{line}");
    }
    for (line, after_imm, place) in [
        ("bslli r3, r4, 32", false, 14), ("bslli r3, r4, -1", false, 14), ("imm 65536", false, 4), ("imm -1", false, 4),
        ("mbar 32", false, 5), ("msrclr r3, 32768", false, 11), ("addik r3, r0, 65536", true, 14), ("addik r3, r0, -32769", true, 14),
    ] {
        let fault = read(line.as_bytes(), after_imm).and_then(|found| found.fault);
        assert!(rt; fault == Some(Note { rule: Rule::OutOfRange, place }), "{line}: {fault:?}");
    }
}

/// Expected: whether a directive takes the operand, and whether its number is within the field.
#[test]
#[rattlefmt::skip]
fn directives_take_their_operands(rt: HostRuntime) {
    for (line, takes, right) in [
        (".org 4", true, true), (".org 0xFFFFFFFC", true, true), (".org 2", true, false), (".org -4", true, false), (".org x", false, false),
        (".word -2147483648", true, true), (".word x", true, true), (".word r3", false, false), (".word \"a\"", false, false),
        (".half 65535", true, true), (".half -32768", true, true), (".half 65536", true, false), (".half -32769", true, false), (".half x", false, false),
        (".byte 255", true, true), (".byte -128", true, true), (".byte 256", true, false), (".byte -129", true, false),
        (".space 0", true, true), (".space 4294967295", true, true), (".space -1", true, false), (".org 0", true, true), (".word 4294967295", true, true), (".align 16", true, true), (".align 8", true, true), (".align 4", true, true), (".align 2", true, true), (".align 1", true, true), (".align 3", true, false), (".align 0", true, false), (".align 32", true, false),
        (".ascii \"a\"", true, true), (".ascii a", false, false), (".entry x", true, true), (".entry r3", false, false), (".global r3", true, true),
    ] {
        let bytes = line.as_bytes();
        let found = split(bytes);
        assert!(rt; found.is_some(), "{line}");
        if let Some((first, operands)) = found {
            let directive = directive_of(bytes_at(bytes, first));
            assert!(rt; directive.is_some(), "{line}");
            if let (Some(directive), Some(token)) = (directive, operands.first()) {
                assert!(rt; directive.takes(bytes, *token) == takes, "{line}");
                assert!(rt; !takes || directive.rule_for(&Unknown, bytes, *token).is_none() == right, "{line}");
            }
        }
    }
    assert!(rt; directive_of(b".foo").is_none() && directive_of(b"org").is_none() && directive_of(b".text") == Some(Directive::Section), "names");
    assert!(rt; Directive::Section.takes_count(0) && !Directive::Words.takes_count(0) && !Directive::Org.takes_count(2), "counts");
    let number = split(b".byte -1");
    if let Some((_, operands)) = number {
        if let Some(token) = operands.first() {
            assert!(rt; matches!(Directive::Bytes.item_for(&Unknown, b".byte -1", *token), Some(Item::Byte(255))), "a byte");
        }
    }
}

/// The number of items of a statement, and what it tells beside them.
fn told(alloc: Global, line: &[u8], whole: bool) -> Option<(usize, Rest)> {
    if line.len() > 0x40_0000 {
        return None;
    }
    let lexed = lex_start(line);
    let mut tokens: ArrayVec<Token, 40> = ArrayVec::new();
    for k in 0..lexed.tokens.len() {
        if let Some(token) = lexed.tokens.get(k) {
            tokens.try_push(token).ok()?;
        }
    }
    if tokens.len() > 40 {
        return None;
    }
    let mut out = Vec::new(alloc);
    let head = Head { line: 1, column: 1 };
    match add_statement(
        &mut out,
        head,
        &Unknown,
        false,
        whole,
        line,
        tokens.as_slice(),
    ) {
        Ok(rest) => Some((out.len(), rest)),
        Err(_) => None,
    }
}

/// Expected: how many items each statement asks for, and its first fault.
#[test]
#[rattlefmt::skip]
fn statements_are_told(rt: HostRuntime) {
    use Rule::{OutOfRange, UnknownDirective, UnknownMnemonic, WrongOperands};
    for (line, whole, items, fault) in [
        ("", true, 0, None), ("nop", true, 1, None), (".word 1, x, 3", true, 3, None), (".ascii \"a\\n\\\"\"", true, 3, None),
        (".text", true, 0, None), (".global r3", true, 0, None), (".entry x", true, 0, None), (".align 4", true, 1, None), (".ascii \"\"", true, 0, None),
        ("addik r3, r0", true, 0, Some((WrongOperands, 0))), (" .byte 300, r5", true, 0, Some((WrongOperands, 1))), (".word", true, 0, Some((WrongOperands, 0))),
        (".text x", true, 0, Some((WrongOperands, 0))), (".space 1, 2", true, 0, Some((WrongOperands, 0))), (".byte 1, 300", true, 1, Some((OutOfRange, 9))),
        (".foo 5", true, 0, Some((UnknownDirective, 0))), ("foo r1", true, 0, Some((UnknownMnemonic, 0))), (" 5", true, 0, Some((UnknownMnemonic, 1))),
        (", nop", true, 0, Some((UnknownMnemonic, 0))), ("addik r3", false, 0, None), ("foo", false, 0, Some((UnknownMnemonic, 0))), (".foo", false, 0, Some((UnknownDirective, 0))),
    ] {
        let found = told(rt.alloc(), line.as_bytes(), whole);
        let expected = fault.map(|(rule, place)| Note { rule, place });
        assert!(rt; matches!(found, Some((count, rest)) if count == items && rest.fault == expected), "{line}: {found:?}");
    }
}
