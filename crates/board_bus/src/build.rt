//! How the devices of a board begin.
ghost use Rattle.std.specs.Prelude.{◌≡◌, ◌≤◌, ◌<◌, IfOk, IfSome, Some, length, map, slice_get};
ghost use Rattle.axi_intc.specs.Machine.{fresh as fresh_intc};
ghost use Rattle.axi_timer.specs.Machine.{fresh as fresh_timer};
ghost use Rattle.board_machine.specs.World.{blobs_left, serial_of, serials_of};

use crate::bus::Bus;
use crate::serial::SerialLine;
use axi_intc::Intc;
use axi_timer::Timer;
use board_file::{IntcRow, TimerRow, UartRow};
use host_io::{Blob, FileName, NoMemory};
use std::alloc::Global;

fn copied_name(name: &Option<FileName>) -> Option<FileName>
    ensures { result ≡ name.now }
{
    match name {
        Some(name) => Some(name.copied()),
        None => None,
    }
}

fn copied_timer(row: &TimerRow) -> TimerRow
    ensures { result ≡ row.now }
{
    TimerRow {
        name: row.name.copied(),
        core: row.core,
        base: row.base,
        irq: row.irq,
        clock: row.clock,
    }
}

fn copied_intc(row: &IntcRow) -> IntcRow
    ensures { result ≡ row.now }
{
    IntcRow {
        name: row.name.copied(),
        core: row.core,
        base: row.base,
        clock: row.clock,
    }
}

fn copied_uart(row: &UartRow) -> UartRow
    ensures { result ≡ row.now }
{
    UartRow {
        name: row.name.copied(),
        core: row.core,
        base: row.base,
        output: row.output.copied(),
        irq: row.irq,
        input: copied_name(&row.input),
        every: row.every,
        clock: row.clock,
    }
}

fn copied_timers(alloc: Global, rows: &[TimerRow]) -> Result<Vec<TimerRow>, NoMemory>
    ensures { IfOk result (λ v. v.items ≡ rows.now) }
{
    let mut copies = Vec::new(alloc);
    for row in rows {
        copies.push(copied_timer(row))?;
    }
    Ok(copies)
}

fn copied_intcs(alloc: Global, rows: &[IntcRow]) -> Result<Vec<IntcRow>, NoMemory>
    ensures { IfOk result (λ v. v.items ≡ rows.now) }
{
    let mut copies = Vec::new(alloc);
    for row in rows {
        copies.push(copied_intc(row))?;
    }
    Ok(copies)
}

fn copied_uarts(alloc: Global, rows: &[UartRow]) -> Result<Vec<UartRow>, NoMemory>
    ensures { IfOk result (λ v. v.items ≡ rows.now) }
{
    let mut copies = Vec::new(alloc);
    for row in rows {
        copies.push(copied_uart(row))?;
    }
    Ok(copies)
}

/// A new timer for each row.
fn timers_of(alloc: Global, rows: &[TimerRow]) -> Result<Vec<Timer>, NoMemory>
    ensures { IfOk result (λ v. v.items ≡ map (λ r. fresh_timer) rows.now) }
{
    let mut timers = Vec::new(alloc);
    for row in rows {
        timers.push(Timer::new())?;
    }
    Ok(timers)
}

/// A new controller for each row.
fn intcs_of(alloc: Global, rows: &[IntcRow]) -> Result<Vec<Intc>, NoMemory>
    ensures { IfOk result (λ v. v.items ≡ map (λ r. fresh_intc) rows.now) }
{
    let mut intcs = Vec::new(alloc);
    for row in rows {
        intcs.push(Intc::new())?;
    }
    Ok(intcs)
}

/// A new UART; where it has an input file, this is the first of the files.
fn serial_of(
    alloc: Global,
    input: &Option<FileName>,
    blobs: &[Blob],
) -> Result<SerialLine, NoMemory>
    ensures { IfOk result (λ s. s ≡ serial_of input.now blobs.now) }
{
    match input {
        None => SerialLine::new(alloc, &[]),
        Some(_) => match blobs.first() {
            Some(blob) => SerialLine::new(alloc, blob.as_slice()),
            None => SerialLine::new(alloc, &[]),
        },
    }
}

/// The files that are left for the UARTs after one.
fn blobs_left<'a>(input: &Option<FileName>, blobs: &'a [Blob]) -> &'a [Blob]
    ensures { result.now ≡ blobs_left input.now blobs.now }
{
    match input {
        None => blobs,
        Some(_) => match blobs.split_first() {
            Some((_, more)) => more,
            None => blobs,
        },
    }
}

/// A new UART for each row.
fn serials_of(alloc: Global, rows: &[UartRow], blobs: &[Blob]) -> Result<Vec<SerialLine>, NoMemory>
    ensures { IfOk result (λ v. v.items ≡ serials_of rows.now blobs.now) }
{
    let mut serials = Vec::new(alloc);
    let mut left = blobs;
    for row in rows {
        serials.push(serial_of(alloc, &row.input, left)?)?;
        left = blobs_left(&row.input, left);
    }
    Ok(serials)
}

impl Bus {
    /// The devices of these rows at their beginning. `inputs` are the UARTs' input files: one for each row that names one,
    /// in the order of the rows. Only want of memory is refused.
    pub fn new(
        alloc: Global,
        timers: &[TimerRow],
        intcs: &[IntcRow],
        uarts: &[UartRow],
        inputs: &[Blob],
    ) -> Result<Bus, NoMemory>
        requires timers { (k : _) (row : _) → slice_get timers.now k ≡ Some row → IfSome row.irq (λ n. n < 32) × (1 ≤ row.clock) }
        requires intcs { (k : _) (row : _) → slice_get intcs.now k ≡ Some row → 1 ≤ row.clock }
        requires uarts { (k : _) (row : _) → slice_get uarts.now k ≡ Some row → IfSome row.irq (λ n. n < 32) × (1 ≤ row.every) × (1 ≤ row.clock) }
        requires few { length uarts.now ≤ 65535 }
        ensures { IfOk result (λ b. b ≡ record {
          rows = record { timers = timers.now; intcs = intcs.now; uarts = uarts.now };
          devices = record { timers = map (λ r. fresh_timer) timers.now; intcs = map (λ r. fresh_intc) intcs.now; uarts = serials_of uarts.now inputs.now };
        }) }
    {
        Ok(Bus {
            timer_rows: copied_timers(alloc, timers)?,
            intc_rows: copied_intcs(alloc, intcs)?,
            uart_rows: copied_uarts(alloc, uarts)?,
            timers: timers_of(alloc, timers)?,
            intcs: intcs_of(alloc, intcs)?,
            uarts: serials_of(alloc, uarts, inputs)?,
        })
    }
}
