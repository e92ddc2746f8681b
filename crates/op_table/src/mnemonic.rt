ghost use Rattle.op_table.specs.Mnemonics.{text_of};
ghost use Rattle.std.specs.Prelude.{◌≡◌, length};

/// The name of an instruction in UG984, of at most nine letters.
#[derive(Clone, Copy, PartialEq, Eq, Debug)]
pub struct Mnemonic {
    /// The letters, and 0 after the last.
    pub(crate) letters: [u8; 9],
}

impl Mnemonic {
    /// How many letters it has.
    fn count(&self) -> usize
        ensures { result ≡ length (text_of self.now) }
    {
        self.letters
            .iter()
            .take_while(|letter| **letter != 0)
            .count()
    }

    /// Its letters.
    pub fn as_bytes(&self) -> &[u8]
        ensures { result.now ≡ text_of self.now }
    {
        &self.letters[..self.count()]
    }
}
