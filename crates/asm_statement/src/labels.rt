ghost use Rattle.std.specs.Prelude.{◌≡◌, Some};
ghost use Rattle.asm_statement.specs.Labels.{is_label_name, is_special};

use asm_syntax::{port_of, register_of, with_special};
use op_table::Op;

/// The labels of a source.
pub trait Labels {
    ghost use Rattle.std.specs.Prelude.{List, ℕ, Option};

    /// The item before which the label of a name stands.
    ghost items: { Self → List ℕ → Option ℕ };

    /// The item before which a label stands; None where it is nowhere defined.
    fn find(&self, name: &[u8]) -> Option<usize>
        ensures { result ≡ items self.now name.now };
}

/// Labels that aren't known yet: each is taken to stand before the first item.
pub struct Unknown;

impl Labels for Unknown {
    ghost items = { λ _ name. Some 0 };

    fn find(&self, _name: &[u8]) -> Option<usize> {
        Some(0)
    }
}

/// Whether a word is the name of a special register.
fn is_special(word: &[u8]) -> bool
    ensures { result ≡ is_special word.now }
{
    with_special(Op::MfsRpc, word).is_some()
}

/// Whether a word can be the name of a label that is a value.
#[tactic(auto, unfolding(crate::specs::Labels::is_label_name))]
pub fn is_label_name(word: &[u8]) -> bool
    ensures { result ≡ is_label_name word.now }
{
    register_of(word).is_none() && port_of(word).is_none() && !is_special(word)
}
