//! The windows of devices, and the accesses of cores.
ghost use Rattle.std.specs.Prelude.{◌≡◌, length, Some, IsErr};
ghost use Rattle.board_machine.specs.Bus.{answer_at, in_window, intc_place, offset_in, spot_at, spot_by, timer_place, uart_place};
ghost use Rattle.board_bus.specs.State.{accessed};
ghost use Rattle.bus_map.specs.Answers.{Answers};
ghost use Rattle.bus_map.specs.declared.device.Access.TheVariants.{Read, Write};
ghost use Rattle.board_machine.specs.declared.parts.Spot.TheVariants.{Timer as AtTimer, Intc as AtIntc, Uart as AtUart};

use crate::serial::SerialLine;
use axi_intc::Intc;
use axi_timer::Timer;
use board_file::{IntcRow, TimerRow, UartRow};
use board_machine::Spot;
use bus_map::{Access, BadAccess, Device};
use std::marker::Model;

/// The devices of a board, in the order of their rows.
#[derive(Drop)]
pub struct Bus {
    pub(crate) timer_rows: Vec<TimerRow>,
    pub(crate) intc_rows: Vec<IntcRow>,
    pub(crate) uart_rows: Vec<UartRow>,
    pub(crate) timers: Vec<Timer>,
    pub(crate) intcs: Vec<Intc>,
    pub(crate) uarts: Vec<SerialLine>,
}

impl Model for Bus {
    ghost use Rattle.std.specs.Prelude.{◌≡◌, ◌≤◌, ◌<◌, length, All, IfSome};
    ghost use Rattle.board_bus.specs.State.{BusState};

    ghost Value = { BusState };

    ghost view = { λ b. record {
      rows = record { timers = b.timer_rows.items; intcs = b.intc_rows.items; uarts = b.uart_rows.items };
      devices = record { timers = b.timers.items; intcs = b.intcs.items; uarts = b.uarts.items };
    } };

    ghost invariant = { λ b. (length b.timers.items ≡ length b.timer_rows.items) × (length b.intcs.items ≡ length b.intc_rows.items)
        × (length b.uarts.items ≡ length b.uart_rows.items) × (length b.uart_rows.items ≤ 65535)
        × All (λ r. IfSome r.irq (λ n. n < 32)) b.timer_rows.items × All (λ r. IfSome r.irq (λ n. n < 32)) b.uart_rows.items
        × All (λ r. 0 < r.clock) b.timer_rows.items × All (λ r. 0 < r.clock) b.intc_rows.items
        × All (λ r. (0 < r.every) × (0 < r.clock)) b.uart_rows.items };
}

/// Whether an address is in the window of a device that stands on this core's bus from this base on.
fn in_window(core: u16, addr: u32, owner: u16, base: u32) -> bool
    ensures { result ≡ in_window core addr owner base }
{
    owner == core && base == addr - addr % 4096
}

fn spot_by(timer: Option<usize>, intc: Option<usize>, uart: Option<usize>) -> Option<Spot>
    ensures { result ≡ spot_by timer intc uart }
{
    match timer {
        Some(k) => Some(Spot::Timer(k)),
        None => match intc {
            Some(k) => Some(Spot::Intc(k)),
            None => match uart {
                Some(k) => Some(Spot::Uart(k)),
                None => None,
            },
        },
    }
}

impl Bus {
    fn timer_place(&self, core: u16, addr: u32) -> Option<usize>
        ensures { result ≡ timer_place self.now.rows core addr }
    {
        self.timer_rows
            .iter()
            .position(|row| in_window(core, addr, row.core, row.base))
    }

    fn intc_place(&self, core: u16, addr: u32) -> Option<usize>
        ensures { result ≡ intc_place self.now.rows core addr }
    {
        self.intc_rows
            .iter()
            .position(|row| in_window(core, addr, row.core, row.base))
    }

    fn uart_place(&self, core: u16, addr: u32) -> Option<usize>
        ensures { result ≡ uart_place self.now.rows core addr }
    {
        self.uart_rows
            .iter()
            .position(|row| in_window(core, addr, row.core, row.base))
    }

    /// The device whose window of a core's bus has an address.
    #[tactic(auto, unfolding(board_machine::specs::Bus::spot_at))]
    fn spot(&self, core: u16, addr: u32) -> Option<Spot>
        ensures { result ≡ spot_at self.now.rows core addr }
    {
        spot_by(
            self.timer_place(core, addr),
            self.intc_place(core, addr),
            self.uart_place(core, addr),
        )
    }

    #[tactic(auto, unfolding(board_machine::specs::Bus::answer_at, board_machine::specs::Bus::accessed_at))]
    fn access_timer(&mut self, k: usize, a: Access) -> Result<u32, BadAccess>
        ensures answer { Answers (answer_at self.old.devices a (Some (AtTimer k))) result }
        ensures leaves { self.new ≡ accessed a (Some (AtTimer k)) self.old }
    {
        match self.timers.get_mut(k) {
            Some(timer) => timer.access(a),
            None => Err(BadAccess),
        }
    }

    #[tactic(auto, unfolding(board_machine::specs::Bus::answer_at, board_machine::specs::Bus::accessed_at))]
    fn access_intc(&mut self, k: usize, a: Access) -> Result<u32, BadAccess>
        ensures answer { Answers (answer_at self.old.devices a (Some (AtIntc k))) result }
        ensures leaves { self.new ≡ accessed a (Some (AtIntc k)) self.old }
    {
        match self.intcs.get_mut(k) {
            Some(intc) => intc.access(a),
            None => Err(BadAccess),
        }
    }

    #[tactic(auto, unfolding(board_machine::specs::Bus::answer_at, board_machine::specs::Bus::accessed_at))]
    fn access_uart(&mut self, k: usize, a: Access) -> Result<u32, BadAccess>
        ensures answer { Answers (answer_at self.old.devices a (Some (AtUart k))) result }
        ensures leaves { self.new ≡ accessed a (Some (AtUart k)) self.old }
    {
        match self.uarts.get_mut(k) {
            Some(line) => line.access(a),
            None => Err(BadAccess),
        }
    }

    #[tactic(auto, unfolding(board_machine::specs::Bus::answer_at, board_machine::specs::Bus::accessed_at))]
    fn access_at(&mut self, spot: Option<Spot>, a: Access) -> Result<u32, BadAccess>
        ensures answer { Answers (answer_at self.old.devices a spot) result }
        ensures leaves { self.new ≡ accessed a spot self.old }
    {
        match spot {
            Some(Spot::Timer(k)) => self.access_timer(k, a),
            Some(Spot::Intc(k)) => self.access_intc(k, a),
            Some(Spot::Uart(k)) => self.access_uart(k, a),
            None => Err(BadAccess),
        }
    }

    /// A core reads a word. `BadAccess` comes where no device of the core has the address, or where the device refuses;
    /// then nothing changed.
    pub fn read(&mut self, core: u16, addr: u32) -> Result<u32, BadAccess>
        ensures answer { Answers (answer_at self.old.devices (Read (offset_in addr)) (spot_at self.old.rows core addr)) result }
        ensures leaves { self.new ≡ accessed (Read (offset_in addr)) (spot_at self.old.rows core addr) self.old }
        ensures refused { IsErr result → self.new ≡ self.old }
    {
        let spot = self.spot(core, addr);
        self.access_at(spot, Access::Read(addr % 4096))
    }

    /// A core writes a word. `BadAccess` as by `read`.
    pub fn write(&mut self, core: u16, addr: u32, word: u32) -> Result<u32, BadAccess>
        ensures answer { Answers (answer_at self.old.devices (Write (offset_in addr) word) (spot_at self.old.rows core addr)) result }
        ensures leaves { self.new ≡ accessed (Write (offset_in addr) word) (spot_at self.old.rows core addr) self.old }
        ensures refused { IsErr result → self.new ≡ self.old }
    {
        let spot = self.spot(core, addr);
        self.access_at(spot, Access::Write(addr % 4096, word))
    }
}
