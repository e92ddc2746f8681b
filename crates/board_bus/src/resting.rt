//! Whether the devices can do anything by themselves.
ghost use Rattle.std.specs.Prelude.{◌≡◌, ◌&&◌, ◌<◌, not, length, slice_get, true};
ghost use Rattle.std.specs.List.{list_all};
ghost use Rattle.axi_intc.specs.Machine.{output as intc_output};
ghost use Rattle.board_bus.specs.RestTests.{counter_rests, intc_rests, intc_rests_at, intcs_rest, serial_rests, timer_rests};
ghost use Rattle.board_machine.specs.DeviceMoves.{inputs_of, timer_input, timer_inputs, uart_input, uart_inputs};
ghost use Rattle.quiet_cycles.specs.Quiet.{AreAtRest};

use crate::bus::Bus;
use crate::moves::input_bit;
use axi_intc::{Intc, Mer};
use axi_timer::{Counter, Tcsr, Timer};
use bitflags::Flags;
use bus_map::Device;

/// Whether a cycle leaves a counter as it is.
fn counter_rests(counter: &Counter) -> bool
    ensures { result ≡ counter_rests counter.now }
{
    let tcsr = counter.tcsr;
    !tcsr.intersects(Tcsr::LOAD)
        && (!tcsr.intersects(Tcsr::ENT) || (counter.over && !tcsr.intersects(Tcsr::ARHT)))
}

/// Whether a cycle leaves a timer as it is.
fn timer_rests(timer: &Timer) -> bool
    ensures { result ≡ timer_rests timer.now }
{
    counter_rests(&timer.first) && counter_rests(&timer.second)
}

/// Whether a cycle with these inputs leaves a controller as it is.
fn intc_rests(intc: &Intc, inputs: u32) -> bool
    ensures { result ≡ intc_rests inputs intc.now }
{
    !intc.mer.intersects(Mer::HIE) || intc.isr | inputs == intc.isr
}

fn both(first: bool, second: bool) -> bool
    ensures { result ≡ (first && second) }
{
    first && second
}

/// Whether a controller asks for no line.
fn is_low(intc: &Intc) -> bool
    ensures { result ≡ not (intc_output intc.now) }
{
    let mut same = *intc;
    !same.line()
}

impl Bus {
    /// Whether a cycle leaves each timer as it is.
    fn timers_rest(&self) -> bool
        ensures { result ≡ list_all timer_rests self.now.devices.timers }
    {
        self.timers.iter().all(|timer| timer_rests(timer))
    }

    /// The input bit of a core's controller that a timer holds high.
    fn bit_of_timer(&self, core: u16, k: usize) -> u32
        requires { k < length self.now.rows.timers }
        ensures { result ≡ timer_input core (slice_get self.now.rows.timers k) (slice_get self.now.devices.timers k) }
    {
        let mut same = self.timers[k];
        let high = same.line();
        let row = &self.timer_rows[k];
        input_bit(row.core == core && high, row.irq)
    }

    /// The input bits of a core's controller that timers hold high.
    pub(crate) fn bits_of_timers(&self, core: u16) -> u32
        ensures { result ≡ timer_inputs self.now.rows self.now.devices core (length self.now.rows.timers) }
    {
        let mut inputs = 0;
        for k in 0..self.timer_rows.len() {
            inputs |= self.bit_of_timer(core, k);
        }
        inputs
    }

    /// The input bit of a core's controller that a UART's edge holds high.
    fn bit_of_uart(&self, core: u16, k: usize) -> u32
        requires { k < length self.now.rows.uarts }
        ensures { result ≡ uart_input core (slice_get self.now.rows.uarts k) (slice_get self.now.devices.uarts k) }
    {
        let high = self.uarts[k].holds_edge();
        let row = &self.uart_rows[k];
        input_bit(row.core == core && high, row.irq)
    }

    /// The input bits of a core's controller that edges of UARTs hold high.
    fn bits_of_uarts(&self, core: u16) -> u32
        ensures { result ≡ uart_inputs self.now.rows self.now.devices core (length self.now.rows.uarts) }
    {
        let mut inputs = 0;
        for k in 0..self.uart_rows.len() {
            inputs |= self.bit_of_uart(core, k);
        }
        inputs
    }

    /// The inputs of a core's controller that are high.
    #[tactic(auto, unfolding(board_machine::specs::DeviceMoves::inputs_of))]
    fn inputs(&self, core: u16) -> u32
        ensures { result ≡ inputs_of self.now.rows self.now.devices core }
    {
        self.bits_of_timers(core) | self.bits_of_uarts(core)
    }

    /// Whether a cycle leaves a controller as it is.
    fn intc_rests(&self, k: usize) -> bool
        requires { k < length self.now.rows.intcs }
        ensures { result ≡ intc_rests_at self.now.rows self.now.devices (slice_get self.now.rows.intcs k) (slice_get self.now.devices.intcs k) }
    {
        let core = self.intc_rows[k].core;
        let inputs = self.inputs(core);
        intc_rests(&self.intcs[k], inputs)
    }

    /// Whether a cycle leaves each controller as it is.
    fn intcs_rest(&self) -> bool
        ensures { result ≡ intcs_rest self.now.rows self.now.devices (length self.now.rows.intcs) }
    {
        let mut rest = true;
        for k in 0..self.intc_rows.len() {
            rest = both(rest, self.intc_rests(k));
        }
        rest
    }

    /// Whether no controller asks for a line.
    fn are_low(&self) -> bool
        ensures { result ≡ list_all (λ c. not (intc_output c)) self.now.devices.intcs }
    {
        self.intcs.iter().all(|intc| is_low(intc))
    }

    /// Whether each UART is done and holds no edge.
    fn uarts_rest(&self) -> bool
        ensures { result ≡ list_all serial_rests self.now.devices.uarts }
    {
        self.uarts.iter().all(|line| line.is_at_rest())
    }

    /// Only where a cycle leaves all devices as they are, and no controller asks for a line.
    #[tactic(auto, using(crate::proofs::AtRest::are_at_rest))]
    pub fn is_at_rest(&self) -> bool
        ensures { result ≡ true → AreAtRest self.now.rows self.now.devices }
    {
        self.timers_rest() && self.uarts_rest() && self.are_low() && self.intcs_rest()
    }
}
