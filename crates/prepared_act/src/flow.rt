// Where an instruction leads.

ghost use Rattle.std.specs.Prelude.{◌≡◌};
ghost use Rattle.prepared_act.specs.Retiring.{flow_by, flow_of};

use isa_step::{Done, Store};

/// Where an instruction that retires leads.
#[derive(Clone, Copy, Debug, PartialEq, Eq)]
pub enum Flow {
    /// On to the next word.
    On,
    /// Elsewhere: a branch was taken, or a return or a break instruction was done.
    Jumped,
    /// On to the next word, after a store to an address.
    Stored(u32),
}

fn flow_by(jumped: bool, store: &Option<Store>) -> Flow
    ensures { result ≡ flow_by jumped store.now }
{
    match (jumped, store) {
        (true, _) => Flow::Jumped,
        (false, None) => Flow::On,
        (false, Some(store)) => Flow::Stored(store.addr),
    }
}

/// Where an instruction that retired leads.
pub fn flow_of(done: &Done) -> Flow
    ensures { result ≡ flow_of done.now }
{
    flow_by(done.jumped, &done.store)
}
