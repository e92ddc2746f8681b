//! The fields of the forms, the instruction table, and the place where the rows of each opcode begin.
ghost use Rattle.op_table.specs.Forms.{AreSound, fields_of};
ghost use Rattle.std.specs.Prelude.{◌≡◌};

use crate::entry::Row;
use crate::form::{Field, Form, Part};
use crate::kinds::{
    Condition, Kind, Latency, LogicKind, MulKind, Return, Second, ShiftKind, Special, TopBit,
    UnaryKind,
};
use crate::mnemonic::Mnemonic;
use crate::op::Op;
use core_regs::Size;

/// How many rows the table has.
pub const COUNT: usize = 123;

/// A field that holds a part in so many bits from a bit on.
macro_rules! field {
    ($part:ident $first:literal $width:literal) => {
        Field { part: Part::$part, first: $first, width: $width }
    };
}

const RD: Field = field!(Rd 6 5);

const RA: Field = field!(Ra 11 5);

const RB: Field = field!(Rb 16 5);

const IMM: Field = field!(Imm 16 16);

const SHIFT_COUNT: Field = field!(Imm 27 5);

const NUMBER: Field = field!(Imm 6 5);

const MSR_BITS: Field = field!(Imm 17 15);

const PORT: Field = field!(Imm 28 4);

const LETTERS: Field = field!(Letters 17 5);

const PUT_LETTERS: Field = field!(PutLetters 17 4);

const LOW_LETTERS: Field = field!(Letters 22 5);

const LOW_PUT_LETTERS: Field = field!(PutLetters 22 4);

/// Hands the fields of a form, from the highest on, to a macro.
macro_rules! with_fields {
    (A $then:ident) => { $then!(RD RA RB) };
    (U $then:ident) => { $then!(RD RA) };
    (B $then:ident) => { $then!(RD RA IMM) };
    (S $then:ident) => { $then!(RD RA SHIFT_COUNT) };
    (R $then:ident) => { $then!(RB) };
    (Rl $then:ident) => { $then!(RD RB) };
    (I $then:ident) => { $then!(IMM) };
    (Il $then:ident) => { $then!(RD IMM) };
    (Cr $then:ident) => { $then!(RA RB) };
    (Ci $then:ident) => { $then!(RA IMM) };
    (M $then:ident) => { $then!(RD) };
    (N $then:ident) => { $then!(NUMBER) };
    (T $then:ident) => { $then!(RA) };
    (E $then:ident) => { $then!(RD MSR_BITS) };
    (G $then:ident) => { $then!(RD LETTERS PORT) };
    (P $then:ident) => { $then!(RA PUT_LETTERS PORT) };
    (Gd $then:ident) => { $then!(RD RB LOW_LETTERS) };
    (Pd $then:ident) => { $then!(RA RB LOW_PUT_LETTERS) };
}

/// Fields as a slice.
macro_rules! slice {
    ($($field:ident)+) => { &[$($field),+] };
}

/// The bits of a word but those of fields.
macro_rules! others {
    ($($field:ident)+) => { !($(((1 << $field.width) - 1) << (32 - $field.first - $field.width))|+) };
}

/// The slice of the form that a value is.
macro_rules! fields_by {
    ($form:ident $($name:ident)+) => {
        match $form {
            $(Form::$name => with_fields!($name slice),)+
        }
    };
}

impl Form {
    /// The fields of the form, from the highest on. All other bits of a word are fixed by its row.
    pub fn fields(self) -> &'static [Field]
        ensures fields { result.now ≡ fields_of self }
        ensures sound { AreSound result.now }
    {
        fields_by!(self A U B S R Rl I Il Cr Ci M N T E G P Gd Pd)
    }
}

/// The mask of a form's rows: all bits of a word that the form has no field for.
macro_rules! mask {
    ($form:ident) => { with_fields!($form others) };
}

/// A letter of a mnemonic, 0 after the last.
macro_rules! letter {
    ($name:literal $k:literal) => {
        if $k < $name.len() { $name[$k] } else { 0 }
    };
}

/// A mnemonic.
macro_rules! mnemonic {
    ($name:literal) => {
        Mnemonic {
            letters: [
                letter!($name 0),
                letter!($name 1),
                letter!($name 2),
                letter!($name 3),
                letter!($name 4),
                letter!($name 5),
                letter!($name 6),
                letter!($name 7),
                letter!($name 8),
            ],
        }
    };
}

/// How soon a row's register can be used.
macro_rules! latency {
    (None) => { None };
    ($latency:ident) => { Some(Latency::$latency) };
}

/// Whether a row's instruction is allowed in a delay slot.
macro_rules! allowed {
    (slot) => { true };
    (no_slot) => { false };
}

/// A row: its instruction, mnemonic, form and the bits that it fixes; where its second operand stands, how soon its
/// register can be used, whether a delay slot takes it, and what it does.
macro_rules! row {
    ($op:ident $name:literal $form:ident $bits:literal $second:ident $latency:ident $slot:ident $($kind:tt)+) => {
        Row {
            op: Op::$op,
            name: mnemonic!($name),
            mask: mask!($form),
            bits: $bits,
            form: Form::$form,
            second: Second::$second,
            latency: latency!($latency),
            slot_ok: allowed!($slot),
            kind: Kind::$($kind)+,
        }
    };
}

/// The rows, in the order of their opcodes (UG984, "MicroBlaze Instruction Set Architecture") and of the variants of `Op`.
pub static ROWS: [Row; COUNT] = [
    // Opcodes 00 to 07: sums and differences of registers; 05 has the comparisons too.
    row!(Add      b"add"       A  0x0000_0000 Register  Single   slot    Add { carry: false, keep: false }),
    row!(Rsub     b"rsub"      A  0x0400_0000 Register  Single   slot    Rsub { carry: false, keep: false }),
    row!(Addc     b"addc"      A  0x0800_0000 Register  Single   slot    Add { carry: true, keep: false }),
    row!(Rsubc    b"rsubc"     A  0x0C00_0000 Register  Single   slot    Rsub { carry: true, keep: false }),
    row!(Addk     b"addk"      A  0x1000_0000 Register  Single   slot    Add { carry: false, keep: true }),
    row!(Rsubk    b"rsubk"     A  0x1400_0000 Register  Single   slot    Rsub { carry: false, keep: true }),
    row!(Cmp      b"cmp"       A  0x1400_0001 Register  Single   slot    Compare { signed: true }),
    row!(Cmpu     b"cmpu"      A  0x1400_0003 Register  Single   slot    Compare { signed: false }),
    row!(Addkc    b"addkc"     A  0x1800_0000 Register  Single   slot    Add { carry: true, keep: true }),
    row!(Rsubkc   b"rsubkc"    A  0x1C00_0000 Register  Single   slot    Rsub { carry: true, keep: true }),
    // Opcodes 08 to 0F: the same with an immediate.
    row!(Addi     b"addi"      B  0x2000_0000 Immediate Single   slot    Add { carry: false, keep: false }),
    row!(Rsubi    b"rsubi"     B  0x2400_0000 Immediate Single   slot    Rsub { carry: false, keep: false }),
    row!(Addic    b"addic"     B  0x2800_0000 Immediate Single   slot    Add { carry: true, keep: false }),
    row!(Rsubic   b"rsubic"    B  0x2C00_0000 Immediate Single   slot    Rsub { carry: true, keep: false }),
    row!(Addik    b"addik"     B  0x3000_0000 Immediate Single   slot    Add { carry: false, keep: true }),
    row!(Rsubik   b"rsubik"    B  0x3400_0000 Immediate Single   slot    Rsub { carry: false, keep: true }),
    row!(Addikc   b"addikc"    B  0x3800_0000 Immediate Single   slot    Add { carry: true, keep: true }),
    row!(Rsubikc  b"rsubikc"   B  0x3C00_0000 Immediate Single   slot    Rsub { carry: true, keep: true }),
    // Opcode 10: products, low word and high words.
    row!(Mul      b"mul"       A  0x4000_0000 Register  Multiply slot    Multiply(MulKind::Low)),
    row!(Mulh     b"mulh"      A  0x4000_0001 Register  Multiply slot    Multiply(MulKind::High)),
    row!(Mulhsu   b"mulhsu"    A  0x4000_0002 Register  Multiply slot    Multiply(MulKind::HighSu)),
    row!(Mulhu    b"mulhu"     A  0x4000_0003 Register  Multiply slot    Multiply(MulKind::HighU)),
    // Opcode 11: shifts by a register.
    row!(Bsrl     b"bsrl"      A  0x4400_0000 Register  Multiply slot    Shift(ShiftKind::Right)),
    row!(Bsra     b"bsra"      A  0x4400_0200 Register  Multiply slot    Shift(ShiftKind::Arith)),
    row!(Bsll     b"bsll"      A  0x4400_0400 Register  Multiply slot    Shift(ShiftKind::Left)),
    // Opcode 12: quotients, signed and unsigned.
    row!(Idiv     b"idiv"      A  0x4800_0000 Register  Single   slot    Divide { signed: true }),
    row!(Idivu    b"idivu"     A  0x4800_0002 Register  Single   slot    Divide { signed: false }),
    // Opcode 13: stream accesses whose port is in a register.
    row!(Getd     b"getd"      Gd 0x4C00_0000 Register  Load     slot    Get { dynamic: true }),
    row!(Putd     b"putd"      Pd 0x4C00_0400 Register  None     slot    Put { dynamic: true }),
    // Opcode 18: product with an immediate.
    row!(Muli     b"muli"      B  0x6000_0000 Immediate Multiply slot    Multiply(MulKind::Low)),
    // Opcode 19: shifts by a fixed count.
    row!(Bsrli    b"bsrli"     S  0x6400_0000 Count     Multiply slot    Shift(ShiftKind::Right)),
    row!(Bsrai    b"bsrai"     S  0x6400_0200 Count     Multiply slot    Shift(ShiftKind::Arith)),
    row!(Bslli    b"bslli"     S  0x6400_0400 Count     Multiply slot    Shift(ShiftKind::Left)),
    // Opcode 1B: stream accesses of a fixed port.
    row!(Get      b"get"       G  0x6C00_0000 Register  Load     slot    Get { dynamic: false }),
    row!(Put      b"put"       P  0x6C00_8000 Register  None     slot    Put { dynamic: false }),
    // Opcodes 20 to 23: bitwise logic, and pattern comparisons.
    row!(Or       b"or"        A  0x8000_0000 Register  Single   slot    Logic(LogicKind::Or)),
    row!(Pcmpbf   b"pcmpbf"    A  0x8000_0400 Register  Single   slot    FirstEqualByte),
    row!(And      b"and"       A  0x8400_0000 Register  Single   slot    Logic(LogicKind::And)),
    row!(Xor      b"xor"       A  0x8800_0000 Register  Single   slot    Logic(LogicKind::Xor)),
    row!(Pcmpeq   b"pcmpeq"    A  0x8800_0400 Register  Single   slot    IsEqual { wanted: true }),
    row!(Andn     b"andn"      A  0x8C00_0000 Register  Single   slot    Logic(LogicKind::Andn)),
    row!(Pcmpne   b"pcmpne"    A  0x8C00_0400 Register  Single   slot    IsEqual { wanted: false }),
    // Opcode 24: shifts by one, and what is made of one word.
    row!(Sra      b"sra"       U  0x9000_0001 Register  Single   slot    ShiftByOne(TopBit::Sign)),
    row!(Src      b"src"       U  0x9000_0021 Register  Single   slot    ShiftByOne(TopBit::Carry)),
    row!(Srl      b"srl"       U  0x9000_0041 Register  Single   slot    ShiftByOne(TopBit::Zero)),
    row!(Sext8    b"sext8"     U  0x9000_0060 Register  Single   slot    Unary(UnaryKind::ExtendByte)),
    row!(Sext16   b"sext16"    U  0x9000_0061 Register  Single   slot    Unary(UnaryKind::ExtendHalf)),
    row!(Clz      b"clz"       U  0x9000_00E0 Register  Single   slot    Unary(UnaryKind::CountZeros)),
    row!(Swapb    b"swapb"     U  0x9000_01E0 Register  Single   slot    Unary(UnaryKind::SwapBytes)),
    row!(Swaph    b"swaph"     U  0x9000_01E2 Register  Single   slot    Unary(UnaryKind::SwapHalves)),
    // Opcode 24: caches.
    row!(Wdc      b"wdc"       Cr 0x9000_0064 Register  None     slot    Cache),
    row!(WdcFlush b"wdc.flush" Cr 0x9000_0074 Register  None     slot    Cache),
    row!(WdcClear b"wdc.clear" Cr 0x9000_0066 Register  None     slot    Cache),
    row!(Wic      b"wic"       Cr 0x9000_0068 Register  None     slot    Cache),
    // Opcode 25: special registers.
    row!(MfsRpc   b"mfs"       M  0x9400_8000 Register  Single   slot    MoveFrom(Special::Pc)),
    row!(MfsRmsr  b"mfs"       M  0x9400_8001 Register  Single   slot    MoveFrom(Special::Msr)),
    row!(MfsRear  b"mfs"       M  0x9400_8003 Register  Single   slot    MoveFrom(Special::Ear)),
    row!(MfsResr  b"mfs"       M  0x9400_8005 Register  Single   slot    MoveFrom(Special::Esr)),
    row!(MfsRbtr  b"mfs"       M  0x9400_800B Register  Single   slot    MoveFrom(Special::Btr)),
    row!(MfsRedr  b"mfs"       M  0x9400_800D Register  Single   slot    MoveFrom(Special::Edr)),
    row!(Mts      b"mts"       T  0x9400_C001 Register  None     slot    MoveToMsr),
    row!(Msrset   b"msrset"    E  0x9410_0000 Register  Single   slot    SetMsr),
    row!(Msrclr   b"msrclr"    E  0x9411_0000 Register  Single   slot    ClearMsr),
    // Opcode 26: branches to or by a register.
    row!(Br       b"br"        R  0x9800_0000 Register  Single   no_slot Branch { absolute: false, delayed: false, linked: false }),
    row!(Bra      b"bra"       R  0x9808_0000 Register  Single   no_slot Branch { absolute: true, delayed: false, linked: false }),
    row!(Brd      b"brd"       R  0x9810_0000 Register  Single   no_slot Branch { absolute: false, delayed: true, linked: false }),
    row!(Brad     b"brad"      R  0x9818_0000 Register  Single   no_slot Branch { absolute: true, delayed: true, linked: false }),
    row!(Brld     b"brld"      Rl 0x9814_0000 Register  Single   no_slot Branch { absolute: false, delayed: true, linked: true }),
    row!(Brald    b"brald"     Rl 0x981C_0000 Register  Single   no_slot Branch { absolute: true, delayed: true, linked: true }),
    row!(Brk      b"brk"       Rl 0x980C_0000 Register  Single   no_slot Break),
    // Opcode 27: conditional branches by a register.
    row!(Beq      b"beq"       Cr 0x9C00_0000 Register  None     no_slot BranchIf { condition: Condition::Equal, delayed: false }),
    row!(Beqd     b"beqd"      Cr 0x9E00_0000 Register  None     no_slot BranchIf { condition: Condition::Equal, delayed: true }),
    row!(Bne      b"bne"       Cr 0x9C20_0000 Register  None     no_slot BranchIf { condition: Condition::Unequal, delayed: false }),
    row!(Bned     b"bned"      Cr 0x9E20_0000 Register  None     no_slot BranchIf { condition: Condition::Unequal, delayed: true }),
    row!(Blt      b"blt"       Cr 0x9C40_0000 Register  None     no_slot BranchIf { condition: Condition::Less, delayed: false }),
    row!(Bltd     b"bltd"      Cr 0x9E40_0000 Register  None     no_slot BranchIf { condition: Condition::Less, delayed: true }),
    row!(Ble      b"ble"       Cr 0x9C60_0000 Register  None     no_slot BranchIf { condition: Condition::LessOrEqual, delayed: false }),
    row!(Bled     b"bled"      Cr 0x9E60_0000 Register  None     no_slot BranchIf { condition: Condition::LessOrEqual, delayed: true }),
    row!(Bgt      b"bgt"       Cr 0x9C80_0000 Register  None     no_slot BranchIf { condition: Condition::Greater, delayed: false }),
    row!(Bgtd     b"bgtd"      Cr 0x9E80_0000 Register  None     no_slot BranchIf { condition: Condition::Greater, delayed: true }),
    row!(Bge      b"bge"       Cr 0x9CA0_0000 Register  None     no_slot BranchIf { condition: Condition::GreaterOrEqual, delayed: false }),
    row!(Bged     b"bged"      Cr 0x9EA0_0000 Register  None     no_slot BranchIf { condition: Condition::GreaterOrEqual, delayed: true }),
    // Opcodes 28 to 2B: bitwise logic with an immediate.
    row!(Ori      b"ori"       B  0xA000_0000 Immediate Single   slot    Logic(LogicKind::Or)),
    row!(Andi     b"andi"      B  0xA400_0000 Immediate Single   slot    Logic(LogicKind::And)),
    row!(Xori     b"xori"      B  0xA800_0000 Immediate Single   slot    Logic(LogicKind::Xor)),
    row!(Andni    b"andni"     B  0xAC00_0000 Immediate Single   slot    Logic(LogicKind::Andn)),
    // Opcode 2C: the upper half of the next immediate.
    row!(Imm      b"imm"       I  0xB000_0000 Register  None     no_slot Prefix),
    // Opcode 2D: returns.
    row!(Rtsd     b"rtsd"      Ci 0xB600_0000 Immediate None     no_slot Return(Return::Subroutine)),
    row!(Rtid     b"rtid"      Ci 0xB620_0000 Immediate None     no_slot Return(Return::Interrupt)),
    row!(Rtbd     b"rtbd"      Ci 0xB640_0000 Immediate None     no_slot Return(Return::Break)),
    row!(Rted     b"rted"      Ci 0xB680_0000 Immediate None     no_slot Return(Return::Exception)),
    // Opcode 2E: branches to or by an immediate, and the barrier.
    row!(Bri      b"bri"       I  0xB800_0000 Immediate Single   no_slot Branch { absolute: false, delayed: false, linked: false }),
    row!(Brai     b"brai"      I  0xB808_0000 Immediate Single   no_slot Branch { absolute: true, delayed: false, linked: false }),
    row!(Brid     b"brid"      I  0xB810_0000 Immediate Single   no_slot Branch { absolute: false, delayed: true, linked: false }),
    row!(Braid    b"braid"     I  0xB818_0000 Immediate Single   no_slot Branch { absolute: true, delayed: true, linked: false }),
    row!(Brlid    b"brlid"     Il 0xB814_0000 Immediate Single   no_slot Branch { absolute: false, delayed: true, linked: true }),
    row!(Bralid   b"bralid"    Il 0xB81C_0000 Immediate Single   no_slot Branch { absolute: true, delayed: true, linked: true }),
    row!(Brki     b"brki"      Il 0xB80C_0000 Immediate Single   no_slot Break),
    row!(Mbar     b"mbar"      N  0xB802_0004 Register  None     no_slot Barrier),
    // Opcode 2F: conditional branches by an immediate.
    row!(Beqi     b"beqi"      Ci 0xBC00_0000 Immediate None     no_slot BranchIf { condition: Condition::Equal, delayed: false }),
    row!(Beqid    b"beqid"     Ci 0xBE00_0000 Immediate None     no_slot BranchIf { condition: Condition::Equal, delayed: true }),
    row!(Bnei     b"bnei"      Ci 0xBC20_0000 Immediate None     no_slot BranchIf { condition: Condition::Unequal, delayed: false }),
    row!(Bneid    b"bneid"     Ci 0xBE20_0000 Immediate None     no_slot BranchIf { condition: Condition::Unequal, delayed: true }),
    row!(Blti     b"blti"      Ci 0xBC40_0000 Immediate None     no_slot BranchIf { condition: Condition::Less, delayed: false }),
    row!(Bltid    b"bltid"     Ci 0xBE40_0000 Immediate None     no_slot BranchIf { condition: Condition::Less, delayed: true }),
    row!(Blei     b"blei"      Ci 0xBC60_0000 Immediate None     no_slot BranchIf { condition: Condition::LessOrEqual, delayed: false }),
    row!(Bleid    b"bleid"     Ci 0xBE60_0000 Immediate None     no_slot BranchIf { condition: Condition::LessOrEqual, delayed: true }),
    row!(Bgti     b"bgti"      Ci 0xBC80_0000 Immediate None     no_slot BranchIf { condition: Condition::Greater, delayed: false }),
    row!(Bgtid    b"bgtid"     Ci 0xBE80_0000 Immediate None     no_slot BranchIf { condition: Condition::Greater, delayed: true }),
    row!(Bgei     b"bgei"      Ci 0xBCA0_0000 Immediate None     no_slot BranchIf { condition: Condition::GreaterOrEqual, delayed: false }),
    row!(Bgeid    b"bgeid"     Ci 0xBEA0_0000 Immediate None     no_slot BranchIf { condition: Condition::GreaterOrEqual, delayed: true }),
    // Opcodes 30 to 36: loads and stores.
    row!(Lbu      b"lbu"       A  0xC000_0000 Register  Load     slot    Load(Size::Byte)),
    row!(Lhu      b"lhu"       A  0xC400_0000 Register  Load     slot    Load(Size::Half)),
    row!(Lw       b"lw"        A  0xC800_0000 Register  Load     slot    Load(Size::Word)),
    row!(Sb       b"sb"        A  0xD000_0000 Register  None     slot    Store(Size::Byte)),
    row!(Sh       b"sh"        A  0xD400_0000 Register  None     slot    Store(Size::Half)),
    row!(Sw       b"sw"        A  0xD800_0000 Register  None     slot    Store(Size::Word)),
    // Opcodes 38 to 3E: the same with an immediate.
    row!(Lbui     b"lbui"      B  0xE000_0000 Immediate Load     slot    Load(Size::Byte)),
    row!(Lhui     b"lhui"      B  0xE400_0000 Immediate Load     slot    Load(Size::Half)),
    row!(Lwi      b"lwi"       B  0xE800_0000 Immediate Load     slot    Load(Size::Word)),
    row!(Sbi      b"sbi"       B  0xF000_0000 Immediate None     slot    Store(Size::Byte)),
    row!(Shi      b"shi"       B  0xF400_0000 Immediate None     slot    Store(Size::Half)),
    row!(Swi      b"swi"       B  0xF800_0000 Immediate None     slot    Store(Size::Word)),
];

/// The places of the named instructions in the table, and after them its end, for opcode 3F and past it.
macro_rules! places {
    ($($op:ident)*) => { [$(Op::$op as usize,)* COUNT, COUNT] };
}

/// Where the rows of each opcode begin; an opcode without rows has the next one's place.
pub static FIRST_ROW: [usize; 65] = places![
    /* 00 */ Add Rsub Addc Rsubc Addk Rsubk Addkc Rsubkc
    /* 08 */ Addi Rsubi Addic Rsubic Addik Rsubik Addikc Rsubikc
    /* 10 */ Mul Bsrl Idiv Getd Muli Muli Muli Muli
    /* 18 */ Muli Bsrli Get Get Or Or Or Or
    /* 20 */ Or And Xor Andn Sra MfsRpc Br Beq
    /* 28 */ Ori Andi Xori Andni Imm Rtsd Bri Beqi
    /* 30 */ Lbu Lhu Lw Sb Sb Sh Sw Lbui
    /* 38 */ Lbui Lhui Lwi Sbi Sbi Shi Swi
];
