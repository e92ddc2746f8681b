ghost use Rattle.bus_map.specs.Answers.{Answers};
ghost use Rattle.std.specs.Prelude.{◌≡◌, ◌≤◌, IfOk, IsErr, Some, length};
ghost use Rattle.uart_lite.specs.Machine.{arrived, bit_if, cycled, fresh, leaving, mode_status, receive_status, send_status, sent, status, taken_by, value_of, was_read, written};

use crate::registers::{Ctrl, Register, Stat};
use bitflags::Flags;
use bus_map::{Access, BadAccess, Device, NoMemory};
use circular_buffer::HeapCircularBuffer;
use std::alloc::Global;
use std::marker::Model;

/// The bytes that each of the two queues holds at most.
pub const QUEUE_DEPTH: usize = 16;

/// A UART with two queues of 16 bytes (PG142).
///
/// All its memory is taken by `new`: no other call takes any. The bytes that are to arrive stay outside: each cycle is
/// handed the next one.
#[derive(Drop)]
pub struct Uart {
    rx: HeapCircularBuffer<u8>,
    tx: HeapCircularBuffer<u8>,
    enabled: bool,
    overrun: bool,
    edge: bool,
}

impl Model for Uart {
    ghost use Rattle.std.specs.Prelude.{◌≡◌, ◌≤◌, length};
    ghost use Rattle.uart_lite.specs.Machine.{SerialPort};

    ghost Value = { SerialPort };

    ghost view = { λ u. record { rx = u.rx.items; tx = u.tx.items; enabled = u.enabled; overrun = u.overrun; edge = u.edge } };

    ghost invariant = { λ u. (u.rx.capacity ≡ 16) × (u.tx.capacity ≡ 16) × (length u.rx.items ≤ 16) × (length u.tx.items ≤ 16) };
}

impl Uart {
    /// A UART with empty queues and interrupts disabled. `NoMemory` comes only for want of memory.
    pub fn new(alloc: Global) -> Result<Uart, NoMemory>
        ensures { IfOk result (λ u. u ≡ fresh) }
    {
        let rx = HeapCircularBuffer::with_capacity(alloc, QUEUE_DEPTH).map_err(|_| NoMemory)?;
        let tx = HeapCircularBuffer::with_capacity(alloc, QUEUE_DEPTH).map_err(|_| NoMemory)?;
        Ok(Uart {
            rx,
            tx,
            enabled: false,
            overrun: false,
            edge: false,
        })
    }

    /// The number of bytes in TX, which are to leave.
    pub fn sending(&self) -> usize
        ensures bytes { result ≡ length self.now.tx }
        ensures within { result ≤ 16 }
    {
        self.tx.len()
    }

    /// Whether an edge of the output is held. It stays held, unlike by `line`.
    pub fn holds_edge(&self) -> bool
        ensures { result ≡ self.now.edge }
    {
        self.edge
    }

    /// One cycle: the oldest byte of TX leaves and is the answer, None where there is none; then `next` arrives. It is
    /// lost where RX is full.
    pub fn cycle(&mut self, next: Option<u8>) -> Option<u8>
        ensures byte { result ≡ leaving self.old }
        ensures leaves { self.new ≡ cycled next self.old }
    {
        let left = self.send_oldest();
        if let Some(byte) = next {
            self.receive(byte);
        }
        left
    }

    fn send_oldest(&mut self) -> Option<u8>
        ensures byte { result ≡ leaving self.old }
        ensures leaves { self.new ≡ sent self.old }
    {
        self.edge = self.edge || self.enabled && self.tx.len() == 1;
        self.tx.pop_front()
    }

    fn receive(&mut self, byte: u8)
        ensures { self.new ≡ arrived (Some byte) self.old }
    {
        if self.rx.is_full() {
            self.overrun = true;
        } else {
            self.edge = self.edge || self.enabled && self.rx.is_empty();
            let _ = self.rx.try_push_back(byte);
        }
    }

    fn receive_status(&self) -> Stat
        ensures { result.0 ≡ receive_status self.now }
    {
        let valid = bit_if(!self.rx.is_empty(), Stat::RX_VALID);
        valid.union(bit_if(self.rx.is_full(), Stat::RX_FULL))
    }

    fn send_status(&self) -> Stat
        ensures { result.0 ≡ send_status self.now }
    {
        let empty = bit_if(self.tx.is_empty(), Stat::TX_EMPTY);
        empty.union(bit_if(self.tx.is_full(), Stat::TX_FULL))
    }

    fn mode_status(&self) -> Stat
        ensures { result.0 ≡ mode_status self.now }
    {
        let enabled = bit_if(self.enabled, Stat::INTR_ENABLED);
        enabled.union(bit_if(self.overrun, Stat::OVERRUN))
    }

    fn status(&self) -> Stat
        ensures { result.0 ≡ status self.now }
    {
        let queues = self.receive_status().union(self.send_status());
        queues.union(self.mode_status())
    }

    fn read(&mut self, r: Register) -> Result<u32, BadAccess>
        ensures answer { Answers (value_of self.old r) result }
        ensures leaves { self.new ≡ was_read self.old r }
        ensures refused { IsErr result → self.new ≡ self.old }
    {
        match r {
            Register::Rx => self.take_received(),
            Register::Tx => Ok(0),
            Register::Stat => {
                let status = self.status();
                self.overrun = false;
                Ok(status.bits())
            }
            Register::Ctrl => Ok(0),
        }
    }

    fn take_received(&mut self) -> Result<u32, BadAccess>
        ensures answer { Answers (value_of self.old Register.Rx) result }
        ensures leaves { self.new ≡ was_read self.old Register.Rx }
        ensures refused { IsErr result → self.new ≡ self.old }
    {
        match self.rx.pop_front() {
            Some(byte) => Ok(u32::from(byte)),
            None => Err(BadAccess),
        }
    }

    fn write(&mut self, r: Register, word: u32) -> Result<u32, BadAccess>
        ensures answer { Answers (taken_by self.old r) result }
        ensures leaves { self.new ≡ written self.old r word }
        ensures refused { IsErr result → self.new ≡ self.old }
    {
        match r {
            Register::Rx => Ok(0),
            Register::Tx => self.add_to_send(word),
            Register::Stat => Ok(0),
            Register::Ctrl => {
                self.control(Ctrl::from_bits_retain(word));
                Ok(0)
            }
        }
    }

    fn add_to_send(&mut self, word: u32) -> Result<u32, BadAccess>
        ensures answer { Answers (taken_by self.old Register.Tx) result }
        ensures leaves { self.new ≡ written self.old Register.Tx word }
        ensures refused { IsErr result → self.new ≡ self.old }
    {
        if self.tx.is_full() {
            return Err(BadAccess);
        }
        let _ = self.tx.try_push_back((word % 256) as u8);
        Ok(0)
    }

    fn control(&mut self, word: Ctrl)
        ensures { self.new ≡ written self.old Register.Ctrl word.0 }
    {
        if word.intersects(Ctrl::RST_TX) {
            self.tx.clear();
        }
        if word.intersects(Ctrl::RST_RX) {
            self.rx.clear();
        }
        self.enabled = word.intersects(Ctrl::ENABLE_INTR);
    }
}

fn bit_if(on: bool, bit: Stat) -> Stat
    ensures { result.0 ≡ bit_if on bit.0 }
{
    if on { bit } else { Stat::from_bits_retain(0) }
}

impl Device for Uart {
    ghost use Rattle.uart_lite.specs.Machine.{accessed, answer, asked, output};

    ghost answer = { λ u a. answer u a };

    ghost accessed = { λ u a. accessed u a };

    ghost output = { λ u. output u };

    ghost asked = { λ u. asked u };

    /// `BadAccess` comes exactly where the offset has no register, where RX is read and empty, or where TX is written
    /// and full.
    fn access(&mut self, a: Access) -> Result<u32, BadAccess> {
        match a {
            Access::Read(offset) => match Register::at(offset) {
                Some(r) => self.read(r),
                None => Err(BadAccess),
            },
            Access::Write(offset, word) => match Register::at(offset) {
                Some(r) => self.write(r, word),
                None => Err(BadAccess),
            },
        }
    }

    /// Whether an edge is held, which this call uses up: TX became empty or RX non-empty since the last call, with
    /// interrupts enabled.
    fn line(&mut self) -> bool {
        let edge = self.edge;
        self.edge = false;
        edge
    }
}
