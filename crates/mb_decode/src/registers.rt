ghost use Rattle.mb_decode.specs.Registers.{reads, reads_a, reads_b, reads_d, written};
ghost use Rattle.std.specs.Prelude.{◌≡◌};

use crate::instruction::Instr;
use op_table::is_store;

/// Register 0 always holds 0, so that no field that names it, and none that a form lacks, counts as read or written.
impl Instr {
    /// Whether it reads a register by its field rA.
    pub fn reads_a(&self) -> bool
        ensures { result ≡ reads_a self.now }
    {
        self.ra != 0
    }

    /// Whether it reads a register by its field rB.
    pub fn reads_b(&self) -> bool
        ensures { result ≡ reads_b self.now }
    {
        self.rb != 0
    }

    /// Whether it reads a register by its field rD: a store reads what it stores.
    pub fn reads_d(&self) -> bool
        ensures { result ≡ reads_d self.now }
    {
        self.rd != 0 && is_store(self.op)
    }

    /// Whether it reads this register.
    pub fn reads(&self, register: u8) -> bool
        ensures { result ≡ reads self.now register }
    {
        self.reads_a() && self.ra == register
            || self.reads_b() && self.rb == register
            || self.reads_d() && self.rd == register
    }

    /// The register that it writes: rD, but for a store. It is told by the word alone, so an instruction that turns out
    /// to write nothing, as a get that misses or a division that raises, has its rD here too.
    pub fn written(&self) -> Option<u8>
        ensures { result ≡ written self.now }
    {
        if self.rd != 0 && !is_store(self.op) {
            Some(self.rd)
        } else {
            None
        }
    }
}
