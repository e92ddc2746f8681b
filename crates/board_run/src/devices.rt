//! The step of the devices: breaks come, the devices move, and each core's line is latched.
ghost use Rattle.std.specs.Prelude.{◌≡◌, ◌<◌, ◌≤◌, if◌then◌else◌, length, not, slice_get, true};
ghost use Rattle.std.specs.List.{list_all};
ghost use Rattle.board_machine.specs.Bus.{is_done};
ghost use Rattle.board_machine.specs.DeviceMoves.{devices_moved, in_order, intcs_moved, latched, left_at, line_driven, timers_moved, uart_cycled, uart_moved, with_devices};
ghost use Rattle.board_machine.specs.Fabric.{breaks_come, entered, entered_some, no_core};
ghost use Rattle.quiet_cycles.specs.Quiet.{AreAtRest};
ghost use Rattle.run_journal.specs.declared.entry.What.TheVariants.{LineDown, LineUp};

use crate::wires::{Wires, are_low, offers_nothing};
use run_journal::{NO_CORE, What};

impl Wires {
    /// The breaks whose cycle has come become pending, and the devices move.
    pub(crate) fn devices(&mut self)
        requires spare { length self.old.bus.uarts ≤ self.old.spare }
        ensures { self.new ≡ devices_moved (breaks_come self.old) }
    {
        self.let_breaks_come();
        if !self.is_at_rest {
            self.move_devices();
        }
    }

    /// The moves of the devices, at rest or not.
    #[inline(never)]
    fn move_devices(&mut self)
        requires spare { length self.old.bus.uarts ≤ self.old.spare }
        ensures { self.new ≡ devices_moved self.old }
    {
        self.move_timers();
        self.move_uarts();
        self.move_intcs();
        self.come_to_rest();
    }

    /// A cycle of each timer.
    fn move_timers(&mut self)
        ensures { self.new ≡ timers_moved self.old }
    {
        self.is_at_rest = false;
        let cycle = self.cycle;
        self.bus.move_timers(cycle);
    }

    /// The turn of each UART.
    fn move_uarts(&mut self)
        requires spare { length self.old.bus.uarts ≤ self.old.spare }
        ensures { self.new ≡ in_order uart_moved (length self.old.bus.uarts) self.old }
    {
        for k in 0..self.bus.uarts() {
            self.move_uart(k);
        }
    }

    /// The turn of a UART: where its `every` divides the cycle it moves.
    fn move_uart(&mut self, k: u16)
        requires there { k < length self.old.bus.uarts }
        requires spare { 1 ≤ self.old.spare }
        ensures { self.new ≡ uart_moved k self.old }
    {
        let cycle = self.cycle;
        if self.bus.is_turn(cycle, k as usize) {
            self.cycle_uart(k);
        }
    }

    /// A cycle of a UART: a byte that leaves is entered.
    fn cycle_uart(&mut self, k: u16)
        requires there { k < length self.old.bus.uarts }
        requires spare { 1 ≤ self.old.spare }
        ensures { self.new ≡ entered_some no_core 0 (left_at k (slice_get self.old.devices.uarts k)) (with_devices (uart_cycled k self.old.devices) self.old) }
    {
        self.is_at_rest = false;
        if let Some(byte) = self.bus.move_uart(k as usize) {
            self.enter(NO_CORE, 0, What::Left { uart: k, byte });
        }
    }

    /// A cycle of each interrupt controller.
    fn move_intcs(&mut self)
        ensures { self.new ≡ intcs_moved self.old }
    {
        self.is_at_rest = false;
        let cycle = self.cycle;
        self.bus.move_intcs(cycle);
    }

    /// Keeps whether the devices can do anything by themselves.
    fn come_to_rest(&mut self)
        ensures { self.new ≡ self.old }
    {
        self.is_at_rest = self.bus.is_at_rest();
    }

    /// Whether no line can change until a device moves.
    pub(crate) fn lines_stay(&self) -> bool
        ensures low { result ≡ true → list_all (λ high. not high) self.now.lines ≡ true }
        ensures at_rest { result ≡ true → AreAtRest self.now.bus self.now.devices }
    {
        self.are_low && self.is_at_rest
    }

    /// Latches the line of a core, and enters a change of it.
    pub(crate) fn latch(&mut self, core: u16, act: u64)
        requires there { core < length self.old.lines }
        requires spare { 1 ≤ self.old.spare }
        ensures { self.new ≡ latched core act self.old }
    {
        let high = self.bus.line(core);
        if high != self.latched(core) {
            self.change_line(core, act, high);
        }
    }

    /// Sets the line of a core, which changes, and enters that it did.
    fn change_line(&mut self, core: u16, act: u64, high: bool)
        requires there { core < length self.old.lines }
        requires spare { 1 ≤ self.old.spare }
        ensures { self.new ≡ entered core act (if high then LineUp else LineDown) self.old }
    {
        self.are_low = false;
        self.is_calm = false;
        self.lines[core as usize] = high;
        if high {
            self.enter(core, act, What::LineUp);
        } else {
            self.enter(core, act, What::LineDown);
        }
    }

    /// Keeps whether a line is high, and whether anything is offered to a core.
    pub(crate) fn keep_lines(&mut self)
        ensures { self.new ≡ self.old }
    {
        self.are_low = are_low(&self.lines);
        self.is_calm = offers_nothing(&self.lines, &self.pending);
    }

    /// Whether each UART was given its input and sent its bytes.
    pub(crate) fn uarts_are_done(&self) -> bool
        ensures { result ≡ list_all is_done self.now.devices.uarts }
    {
        self.bus.is_done()
    }

    /// The number of UARTs.
    pub(crate) fn uarts(&self) -> usize
        ensures uarts { result ≡ length self.now.bus.uarts }
        ensures few { result ≤ 65535 }
    {
        self.bus.uarts() as usize
    }
}
