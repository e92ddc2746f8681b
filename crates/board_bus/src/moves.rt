//! The moves of the devices in a cycle.
ghost use Rattle.std.specs.Prelude.{◌≡◌, ◌*◌, ◌<◌, length, slice_get, position, IfSome, ◌≤◌};
ghost use Rattle.std.specs.List.{list_all, list_any};
ghost use Rattle.board_machine.specs.Bus.{is_done};
ghost use Rattle.board_machine.specs.DeviceMoves.{controller, divides, edge_used, in_order, input_bit, inputs_of, inputs_taken, intc_cycled, intc_moved, intc_moved_by, is_of, is_turn, left_at, left_of, output_of, timer_cycled, timer_input, timer_inputs, timer_moved, timer_moved_by, uart_asked, uart_cycled, uart_input, uart_inputs};
ghost use Rattle.board_machine.specs.Fabric.{is_on};
ghost use Rattle.uart_lite.specs.Machine.{leaving};

use crate::bus::Bus;
use bus_map::Device;

/// The bit of an input of a controller, where it is high.
pub(crate) fn input_bit(high: bool, irq: Option<u8>) -> u32
    requires { IfSome irq (λ n. n < 32) }
    ensures { result ≡ input_bit high irq }
{
    match irq {
        Some(n) => { if high { 1 << n } else { 0 } }
        None => 0,
    }
}

/// Whether a device that moves in each cycle that this number divides moves in this cycle.
fn divides(clock: u64, cycle: u64) -> bool
    requires { 0 < clock }
    ensures { result ≡ divides clock cycle }
{
    // Most devices move in each cycle, and a division is dear.
    clock == 1 || cycle % clock == 0
}

/// The cycles from one turn of a UART to the next.
fn turn_length(every: u32, clock: u32) -> u64
    ensures { result ≡ every * clock }
{
    every as u64 * clock as u64
}

impl Bus {
    /// Each timer whose clock divides the cycle moves.
    pub fn move_timers(&mut self, cycle: u64)
        ensures { self.new ≡ record (self.old) { devices = in_order (timer_moved self.old.rows cycle) (length self.old.rows.timers) self.old.devices } }
    {
        for k in 0..self.timer_rows.len() {
            self.move_timer(k, cycle);
        }
    }

    fn move_timer(&mut self, k: usize, cycle: u64)
        requires { k < length self.old.rows.timers }
        ensures { self.new ≡ record (self.old) { devices = timer_moved self.old.rows cycle k self.old.devices } }
    {
        let clock = self.timer_rows[k].clock as u64;
        if divides(clock, cycle) {
            self.timers[k].cycle();
        }
    }

    /// Whether it is a UART's turn in a cycle.
    pub fn is_turn(&self, cycle: u64, k: usize) -> bool
        ensures { result ≡ is_turn cycle (slice_get self.now.rows.uarts k) }
    {
        match self.uart_rows.get(k) {
            Some(row) => divides(turn_length(row.every, row.clock), cycle),
            None => false,
        }
    }

    /// The number of UARTs.
    pub fn uarts(&self) -> u16
        ensures uarts { result ≡ length self.now.rows.uarts }
    {
        self.uart_rows.len() as u16
    }

    /// A cycle of a UART, and the byte that left it.
    pub fn move_uart(&mut self, k: usize) -> Option<u8>
        requires { k < length self.old.rows.uarts }
        ensures byte { left_at k (slice_get self.old.devices.uarts k) ≡ left_of k result }
        ensures leaves { self.new ≡ record (self.old) { devices = uart_cycled k self.old.devices } }
    {
        self.uarts[k].cycle()
    }

    /// Whether a core has an interrupt controller.
    pub fn has_controller(&self, core: u16) -> bool
        ensures { result ≡ list_any (is_on core) self.now.rows.intcs }
    {
        self.intc_rows.iter().any(|row| row.core == core)
    }

    /// Whether a core's controller asks for the core's line; no where the core has none.
    pub fn line(&mut self, core: u16) -> bool
        ensures high { result ≡ output_of (controller self.old.devices.intcs (position (is_on core) self.old.rows.intcs)) }
        ensures leaves { self.new ≡ self.old }
    {
        match self.controller_place(core) {
            Some(k) => self.line_at(k),
            None => false,
        }
    }

    /// The place of a core's controller.
    fn controller_place(&self, core: u16) -> Option<usize>
        ensures { result ≡ position (is_on core) self.now.rows.intcs }
    {
        self.intc_rows.iter().position(|row| row.core == core)
    }

    fn line_at(&mut self, k: usize) -> bool
        ensures high { result ≡ output_of (slice_get self.old.devices.intcs k) }
        ensures leaves { self.new ≡ self.old }
    {
        match self.intcs.get_mut(k) {
            Some(intc) => intc.line(),
            None => false,
        }
    }

    /// Asks a UART of a core for its edge, which is used up.
    fn ask_uart(&mut self, core: u16, k: usize) -> u32
        requires { k < length self.old.rows.uarts }
        ensures bit { result ≡ uart_input core (slice_get self.old.rows.uarts k) (slice_get self.old.devices.uarts k) }
        ensures leaves { self.new ≡ record (self.old) { devices = uart_asked self.old.rows core k self.old.devices } }
    {
        let row = &self.uart_rows[k];
        if row.core == core {
            input_bit(self.uarts[k].line(), row.irq)
        } else {
            0
        }
    }

    /// Asks each UART of a core for its edge: the input bits of the core's controller that they hold high.
    #[tactic(auto, using(crate::proofs::Asking::not_yet_asked))]
    fn ask_uarts(&mut self, core: u16) -> u32
        ensures bits { result ≡ uart_inputs self.old.rows self.old.devices core (length self.old.rows.uarts) }
        ensures leaves { self.new ≡ record (self.old) { devices = in_order (uart_asked self.old.rows core) (length self.old.rows.uarts) self.old.devices } }
    {
        let mut inputs = 0;
        for k in 0..self.uart_rows.len() {
            inputs |= self.ask_uart(core, k);
        }
        inputs
    }

    /// A controller takes the inputs of its core in.
    #[tactic(auto, unfolding(board_machine::specs::DeviceMoves::inputs_of))]
    fn take_inputs(&mut self, core: u16, k: usize)
        requires { k < length self.old.rows.intcs }
        ensures { self.new ≡ record (self.old) { devices = inputs_taken self.old.rows core k self.old.devices } }
    {
        let inputs = self.bits_of_timers(core) | self.ask_uarts(core);
        self.intcs[k].cycle(inputs);
    }

    fn move_intc(&mut self, k: usize, cycle: u64)
        requires { k < length self.old.rows.intcs }
        ensures { self.new ≡ record (self.old) { devices = intc_moved self.old.rows cycle k self.old.devices } }
    {
        let clock = self.intc_rows[k].clock as u64;
        if divides(clock, cycle) {
            let core = self.intc_rows[k].core;
            self.take_inputs(core, k);
        }
    }

    /// Each controller whose clock divides the cycle moves; up to then the edges of its core's UARTs are held.
    pub fn move_intcs(&mut self, cycle: u64)
        ensures { self.new ≡ record (self.old) { devices = in_order (intc_moved self.old.rows cycle) (length self.old.rows.intcs) self.old.devices } }
    {
        for k in 0..self.intc_rows.len() {
            self.move_intc(k, cycle);
        }
    }

    /// Whether each UART was given its input and sent its bytes.
    pub fn is_done(&self) -> bool
        ensures { result ≡ list_all is_done self.now.devices.uarts }
    {
        self.uarts.iter().all(|line| line.is_done())
    }
}
