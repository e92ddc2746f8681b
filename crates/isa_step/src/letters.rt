//! The letters of a link instruction (UG984, get, getd, put and putd).
ghost use Rattle.std.specs.Prelude.{◌≡◌, ⊤, [], ◌∷◌, codes};
ghost use Rattle.isa_step.specs.Links.{has_control, has_exception, is_atomic, is_nonblocking, is_test};

use bitflags::{Flag, Flags, bitflag_items};

/// The letters that a link instruction has, as its field `flags` keeps them.
#[derive(Clone, Copy, PartialEq, Eq, Debug)]
pub struct StreamFlags(pub u8);

bitflag_items! {
    impl StreamFlags: u8 {
        /// A wrong control bit is raised.
        const E = 1;
        /// Takes are held off after the access.
        const A = 2;
        /// A test: the link stays as it is.
        const T = 4;
        /// The control bit is expected, or sent.
        const C = 8;
        /// The access doesn't wait.
        const N = 16;
    }
}

impl Flags for StreamFlags {
    type Bits = u8;

    ghost exact = { ⊤ };

    ghost table = { (codes "E", 1) ∷ (codes "A", 2) ∷ (codes "T", 4) ∷ (codes "C", 8) ∷ (codes "N", 16) ∷ [] };

    ghost set_of = { λ letters. letters.0 };

    fn flags<'a>() -> &'a [Flag<StreamFlags>] {
        StreamFlags::FLAGS
    }

    fn bits(&self) -> u8 {
        self.0
    }

    fn from_bits_retain(bits: u8) -> StreamFlags {
        StreamFlags(bits)
    }
}

/// Whether an access doesn't wait, but misses.
#[tactic(auto, unfolding(crate::specs::Links::has_letter))]
pub fn is_nonblocking(flags: u8) -> bool
    ensures { result ≡ is_nonblocking flags }
{
    StreamFlags(flags).intersects(StreamFlags::N)
}

/// Whether the control bit is expected, or sent.
#[tactic(auto, unfolding(crate::specs::Links::has_letter))]
pub fn has_control(flags: u8) -> bool
    ensures { result ≡ has_control flags }
{
    StreamFlags(flags).intersects(StreamFlags::C)
}

/// Whether an access only tests, and leaves its link as it is.
#[tactic(auto, unfolding(crate::specs::Links::has_letter))]
pub fn is_test(flags: u8) -> bool
    ensures { result ≡ is_test flags }
{
    StreamFlags(flags).intersects(StreamFlags::T)
}

/// Whether takes are held off after an access.
#[tactic(auto, unfolding(crate::specs::Links::has_letter))]
pub fn is_atomic(flags: u8) -> bool
    ensures { result ≡ is_atomic flags }
{
    StreamFlags(flags).intersects(StreamFlags::A)
}

/// Whether a wrong control bit is raised.
#[tactic(auto, unfolding(crate::specs::Links::has_letter))]
pub fn has_exception(flags: u8) -> bool
    ensures { result ≡ has_exception flags }
{
    StreamFlags(flags).intersects(StreamFlags::E)
}
