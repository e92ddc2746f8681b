use crate::{COUNT, Form, Op, Row, Second, row, row_of};

/// Whether a delay slot takes no such instruction (UG984): the branches, breaks and returns, the barrier, and `imm`.
#[rattlefmt::skip]
fn is_barred(op: Op) -> bool {
    matches!(op, Op::Br | Op::Bra | Op::Brd | Op::Brad | Op::Brld | Op::Brald | Op::Brk
        | Op::Bri | Op::Brai | Op::Brid | Op::Braid | Op::Brlid | Op::Bralid | Op::Brki
        | Op::Beq | Op::Bne | Op::Blt | Op::Ble | Op::Bgt | Op::Bge
        | Op::Beqd | Op::Bned | Op::Bltd | Op::Bled | Op::Bgtd | Op::Bged
        | Op::Beqi | Op::Bnei | Op::Blti | Op::Blei | Op::Bgti | Op::Bgei
        | Op::Beqid | Op::Bneid | Op::Bltid | Op::Bleid | Op::Bgtid | Op::Bgeid
        | Op::Rtsd | Op::Rtid | Op::Rtbd | Op::Rted | Op::Mbar | Op::Imm)
}

/// Where the second operand of a form stands: an immediate of 16 bits in the forms B, I, IL and CI, but that `imm` has
/// none.
fn second_of_form(row: &Row) -> Second {
    match row.form {
        Form::B | Form::Il | Form::Ci => Second::Immediate,
        Form::I if row.op != Op::Imm => Second::Immediate,
        Form::S => Second::Count,
        _ => Second::Register,
    }
}

#[test]
fn lists_each_instruction_once(rt: HostRuntime) {
    assert!(rt; COUNT == 123, "{COUNT} rows");
    for k in 0..COUNT {
        let listed = row(k);
        assert!(rt; listed.is_some(), "place {k}");
        if let Some(row) = listed {
            assert!(rt; row_of(row.op) == row, "place {k}");
            assert!(rt; row.slot_ok != is_barred(row.op), "place {k}");
            assert!(rt; row.second == second_of_form(&row), "place {k}");
        }
    }
    assert!(rt; row(COUNT).is_none(), "past the end");
    assert!(rt; row(usize::MAX).is_none(), "the greatest place");
}

/// The rows that fix these bits.
fn rows_with(bits: u32) -> (usize, Option<Row>) {
    let mut count: usize = 0;
    let mut last = None;
    for k in 0..COUNT {
        if let Some(row) = row(k) {
            if row.bits == bits {
                count = count.wrapping_add(1);
                last = Some(row);
            }
        }
    }
    (count, last)
}

/// Expected: the mnemonics of a form whose rows fix bits that go up by a step, with their mask.
#[test]
#[rattlefmt::skip]
fn rows_are_those_of_the_guide(rt: HostRuntime) {
    let opcode: u32 = 1 << 26;
    let in_rd: u32 = 1 << 21;
    let in_ra: u32 = 1 << 16;
    let mut listed: usize = 0;
    for (form, mask, first, step, names) in [
        (Form::A, 0xFC00_07FF, 0x0000_0000u32, opcode, "add rsub addc rsubc addk rsubk addkc rsubkc"),
        (Form::B, 0xFC00_0000, 0x2000_0000, opcode, "addi rsubi addic rsubic addik rsubik addikc rsubikc"),
        (Form::A, 0xFC00_07FF, 0x1400_0001, 2, "cmp cmpu"),
        (Form::A, 0xFC00_07FF, 0x4000_0000, 1, "mul mulh mulhsu mulhu"),
        (Form::A, 0xFC00_07FF, 0x4400_0000, 0x200, "bsrl bsra bsll"),
        (Form::A, 0xFC00_07FF, 0x4800_0000, 2, "idiv idivu"),
        (Form::Gd, 0xFC1F_041F, 0x4C00_0000, 0, "getd"),
        (Form::Pd, 0xFFE0_043F, 0x4C00_0400, 0, "putd"),
        (Form::B, 0xFC00_0000, 0x6000_0000, 0, "muli"),
        (Form::S, 0xFC00_FFE0, 0x6400_0000, 0x200, "bsrli bsrai bslli"),
        (Form::G, 0xFC1F_83F0, 0x6C00_0000, 0, "get"),
        (Form::P, 0xFFE0_87F0, 0x6C00_8000, 0, "put"),
        (Form::A, 0xFC00_07FF, 0x8000_0000, opcode, "or and xor andn"),
        (Form::A, 0xFC00_07FF, 0x8000_0400, 0, "pcmpbf"),
        (Form::A, 0xFC00_07FF, 0x8800_0400, opcode, "pcmpeq pcmpne"),
        (Form::U, 0xFC00_FFFF, 0x9000_0001, 0x20, "sra src srl"),
        (Form::U, 0xFC00_FFFF, 0x9000_0060, 1, "sext8 sext16"),
        (Form::U, 0xFC00_FFFF, 0x9000_00E0, 0, "clz"),
        (Form::U, 0xFC00_FFFF, 0x9000_01E0, 2, "swapb swaph"),
        (Form::Cr, 0xFFE0_07FF, 0x9000_0064, 0x10, "wdc wdc.flush"),
        (Form::Cr, 0xFFE0_07FF, 0x9000_0066, 2, "wdc.clear wic"),
        (Form::M, 0xFC1F_FFFF, 0x9400_8000, 1, "mfs mfs"),
        (Form::M, 0xFC1F_FFFF, 0x9400_8003, 2, "mfs mfs"),
        (Form::M, 0xFC1F_FFFF, 0x9400_800B, 2, "mfs mfs"),
        (Form::T, 0xFFE0_FFFF, 0x9400_C001, 0, "mts"),
        (Form::E, 0xFC1F_8000, 0x9410_0000, in_ra, "msrset msrclr"),
        (Form::R, 0xFFFF_07FF, 0x9800_0000, 8 * in_ra, "br bra brd brad"),
        (Form::I, 0xFFFF_0000, 0xB800_0000, 8 * in_ra, "bri brai brid braid"),
        (Form::Rl, 0xFC1F_07FF, 0x9814_0000, 8 * in_ra, "brld brald"),
        (Form::Rl, 0xFC1F_07FF, 0x980C_0000, 0, "brk"),
        (Form::Il, 0xFC1F_0000, 0xB814_0000, 8 * in_ra, "brlid bralid"),
        (Form::Il, 0xFC1F_0000, 0xB80C_0000, 0, "brki"),
        (Form::N, 0xFC1F_FFFF, 0xB802_0004, 0, "mbar"),
        (Form::Cr, 0xFFE0_07FF, 0x9C00_0000, in_rd, "beq bne blt ble bgt bge"),
        (Form::Cr, 0xFFE0_07FF, 0x9E00_0000, in_rd, "beqd bned bltd bled bgtd bged"),
        (Form::Ci, 0xFFE0_0000, 0xBC00_0000, in_rd, "beqi bnei blti blei bgti bgei"),
        (Form::Ci, 0xFFE0_0000, 0xBE00_0000, in_rd, "beqid bneid bltid bleid bgtid bgeid"),
        (Form::B, 0xFC00_0000, 0xA000_0000, opcode, "ori andi xori andni"),
        (Form::I, 0xFFFF_0000, 0xB000_0000, 0, "imm"),
        (Form::Ci, 0xFFE0_0000, 0xB600_0000, in_rd, "rtsd rtid rtbd"),
        (Form::Ci, 0xFFE0_0000, 0xB680_0000, 0, "rted"),
        (Form::A, 0xFC00_07FF, 0xC000_0000, opcode, "lbu lhu lw"),
        (Form::A, 0xFC00_07FF, 0xD000_0000, opcode, "sb sh sw"),
        (Form::B, 0xFC00_0000, 0xE000_0000, opcode, "lbui lhui lwi"),
        (Form::B, 0xFC00_0000, 0xF000_0000, opcode, "sbi shi swi"),
    ] {
        let mut bits = first;
        for name in names.split(' ') {
            let (count, found) = rows_with(bits);
            assert!(rt; count == 1, "{name}: {count} rows");
            if let Some(row) = found {
                let same = row.name.as_bytes() == name.as_bytes() && row.form == form && row.mask == mask;
                assert!(rt; same, "{name}: {row:?}");
            }
            listed = listed.wrapping_add(1);
            bits = bits.wrapping_add(step);
        }
    }
    assert!(rt; listed == COUNT, "{listed} rows");
}
