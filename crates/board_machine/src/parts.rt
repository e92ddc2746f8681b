//! Where an access to the bus goes.

/// A device of a board: its kind, and its place among the board's rows of this kind.
#[derive(Clone, Copy, Debug, PartialEq, Eq)]
pub enum Spot {
    /// A timer.
    Timer(usize),
    /// An interrupt controller.
    Intc(usize),
    /// A UART.
    Uart(usize),
}
