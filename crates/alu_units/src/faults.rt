//! How a division fails.
/// Why a division has no right quotient.
#[derive(Clone, Copy, PartialEq, Eq, Debug)]
pub enum DivFault {
    /// The divisor is 0.
    Zero,
    /// The quotient of two signed words is no signed word: 80000000 hex by -1.
    Overflow,
}
