//! A UART with its input file.
ghost use Rattle.std.specs.Prelude.{◌≡◌, IfOk};
ghost use Rattle.board_bus.specs.RestTests.{serial_rests};
ghost use Rattle.board_machine.specs.Bus.{is_done, next_byte, place_after, port_accessed, serial_asked, serial_cycled};
ghost use Rattle.bus_map.specs.Answers.{Answers};
ghost use Rattle.uart_lite.specs.Machine.{answer, fresh, leaving, output};

use bus_map::{Access, BadAccess, Device};
use host_io::NoMemory;
use std::alloc::Global;
use std::marker::Model;
use uart_lite::Uart;

/// A UART, the bytes of its input file, and how many of them arrived.
#[derive(Drop)]
pub(crate) struct SerialLine {
    port: Uart,
    input: Vec<u8>,
    place: usize,
}

impl Model for SerialLine {
    ghost use Rattle.board_machine.specs.Bus.{Serial};

    ghost Value = { Serial };

    ghost view = { λ s. record { port = s.port; input = s.input.items; place = s.place } };
}

impl SerialLine {
    /// A new UART to which these bytes are to come.
    pub(crate) fn new(alloc: Global, bytes: &[u8]) -> Result<SerialLine, NoMemory>
        ensures { IfOk result (λ s. s ≡ record { port = fresh; input = bytes.now; place = 0 }) }
    {
        let port = Uart::new(alloc).map_err(|_| NoMemory)?;
        let input = Vec::from_slice(alloc, bytes)?;
        Ok(SerialLine {
            port,
            input,
            place: 0,
        })
    }

    fn next(&self) -> Option<u8>
        ensures { result ≡ next_byte self.now }
    {
        self.input.get(self.place).copied()
    }

    fn advance(&mut self, next: Option<u8>)
        requires { next ≡ next_byte self.old }
        ensures { self.new ≡ record (self.old) { place = place_after next self.old.place } }
    {
        if next.is_some() {
            self.place += 1;
        }
    }

    /// A cycle of the UART: a byte may leave, which is the answer, and the next one may arrive.
    pub(crate) fn cycle(&mut self) -> Option<u8>
        ensures byte { result ≡ leaving self.old.port }
        ensures leaves { self.new ≡ serial_cycled self.old }
    {
        let next = self.next();
        self.advance(next);
        self.port.cycle(next)
    }

    /// An access of the UART's core.
    pub(crate) fn access(&mut self, a: Access) -> Result<u32, BadAccess>
        ensures answer { Answers (answer self.old.port a) result }
        ensures leaves { self.new ≡ port_accessed a self.old }
    {
        self.port.access(a)
    }

    /// Whether an edge is held, which is then used up.
    pub(crate) fn line(&mut self) -> bool
        ensures high { result ≡ output self.old.port }
        ensures leaves { self.new ≡ serial_asked self.old }
    {
        self.port.line()
    }

    /// Whether its input was given, and no byte waits to leave.
    pub(crate) fn is_done(&self) -> bool
        ensures { result ≡ is_done self.now }
    {
        self.next().is_none() && self.port.sending() == 0
    }

    /// Whether an edge is held. It stays held.
    pub(crate) fn holds_edge(&self) -> bool
        ensures { result ≡ output self.now.port }
    {
        self.port.holds_edge()
    }

    /// Whether it is done, and holds no edge.
    pub(crate) fn is_at_rest(&self) -> bool
        ensures { result ≡ serial_rests self.now }
    {
        self.is_done() && !self.port.holds_edge()
    }
}
