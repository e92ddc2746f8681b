//! What an addition gives.
/// A sum modulo 2^32, and whether it is above 2^32 - 1.
#[derive(Clone, Copy, PartialEq, Eq, Debug)]
pub struct Sum {
    pub value: u32,
    pub carry: bool,
}
