//! All files of a run, in order.
ghost use Rattle.std.specs.Prelude.{◌≡◌, ◌+◌, ◌≤◌, [], ◌∷◌, List, ℕ, flat_map, length};
ghost use Rattle.std.specs.List.{enumerate_from};
ghost use Rattle.host_io.specs.Outside.{ShelfState};
ghost use Rattle.run_output.specs.Outputs.{WroteOutputs, output_of_journal, output_of_link, output_of_uart, outputs_of};
ghost use Rattle.piece_output.specs.Stored.{Wrote};
ghost use Rattle.run_output.specs.Threads.{Lie};

use crate::chunks::OutputWriter;
use crate::outputs::OutputFault;
use crate::pieces::Exit;
use crate::threads::Threads;
use board_file::{BoardFile, End, LinkRow, UartRow};
use host_io::{FileName, Shelf, StoreFault};
use run_journal::Entry;
use std::alloc::Global;

impl OutputWriter {
    /// Writes the files of a run: those of the links and then of the UARTs in board order, and then the journal, where
    /// a file is named for it. It stops at the first that is refused.
    #[tactic(auto, unfolding(crate::specs::Outputs::outputs_of))]
    pub fn write_outputs<S: Shelf>(
        &mut self,
        alloc: Global,
        shelf: &mut S,
        board: &BoardFile,
        entries: &[Entry],
        threads: &Threads,
        journal_file: &Option<FileName>,
    ) -> Result<(), OutputFault>
        requires lie { Lie threads.now entries.now }
        requires links { length threads.now.links ≡ length board.now.links }
        requires uarts { length threads.now.uarts ≡ length board.now.uarts }
        ensures { WroteOutputs (S.state shelf.old) (S.state shelf.new) (outputs_of board.now entries.now journal_file.now) result }
    {
        self.write_links(alloc, shelf, board.links.as_slice(), entries, threads)?;
        self.write_uarts(alloc, shelf, board.uarts.as_slice(), entries, threads)?;
        self.write_journal(alloc, shelf, board, entries, journal_file)
    }

    /// Writes the files of the links that lead to one.
    fn write_links<S: Shelf>(
        &mut self,
        alloc: Global,
        shelf: &mut S,
        rows: &[LinkRow],
        entries: &[Entry],
        threads: &Threads,
    ) -> Result<(), OutputFault>
        requires lie { Lie threads.now entries.now }
        requires links { length threads.now.links ≡ length rows.now }
        ensures { WroteOutputs (S.state shelf.old) (S.state shelf.new) (flat_map (output_of_link entries.now) (enumerate_from 0 rows.now)) result }
    {
        for (k, row) in rows.iter().enumerate() {
            self.write_link(alloc, shelf, k, row, entries, threads)?;
        }
        Ok(())
    }

    /// Writes the file of the link of a number, where it leads to one.
    fn write_link<S: Shelf>(
        &mut self,
        alloc: Global,
        shelf: &mut S,
        link: usize,
        row: &LinkRow,
        entries: &[Entry],
        threads: &Threads,
    ) -> Result<(), OutputFault>
        requires lie { Lie threads.now entries.now }
        requires knows { link + 1 ≤ length threads.now.links }
        ensures { WroteOutputs (S.state shelf.old) (S.state shelf.new) (output_of_link entries.now (link, row.now)) result }
    {
        match &row.to {
            End::File(name) => {
                let exit = Exit::Link(link);
                named(
                    name,
                    self.write_exit(alloc, shelf, name, entries, threads, exit),
                )
            }
            End::Port { .. } => Ok(()),
        }
    }

    /// Writes the files of the UARTs.
    fn write_uarts<S: Shelf>(
        &mut self,
        alloc: Global,
        shelf: &mut S,
        rows: &[UartRow],
        entries: &[Entry],
        threads: &Threads,
    ) -> Result<(), OutputFault>
        requires lie { Lie threads.now entries.now }
        requires uarts { length threads.now.uarts ≡ length rows.now }
        ensures { WroteOutputs (S.state shelf.old) (S.state shelf.new) (flat_map (output_of_uart entries.now) (enumerate_from 0 rows.now)) result }
    {
        for (k, row) in rows.iter().enumerate() {
            self.write_uart(alloc, shelf, k, row, entries, threads)?;
        }
        Ok(())
    }

    /// Writes the file of the UART of a number.
    fn write_uart<S: Shelf>(
        &mut self,
        alloc: Global,
        shelf: &mut S,
        uart: usize,
        row: &UartRow,
        entries: &[Entry],
        threads: &Threads,
    ) -> Result<(), OutputFault>
        requires lie { Lie threads.now entries.now }
        requires knows { uart + 1 ≤ length threads.now.uarts }
        ensures { WroteOutputs (S.state shelf.old) (S.state shelf.new) (output_of_uart entries.now (uart, row.now)) result }
    {
        let (name, exit) = (&row.output, Exit::Uart(uart));
        named(
            name,
            self.write_exit(alloc, shelf, name, entries, threads, exit),
        )
    }

    /// Writes the journal, where a file is named for it.
    fn write_journal<S: Shelf>(
        &mut self,
        alloc: Global,
        shelf: &mut S,
        board: &BoardFile,
        entries: &[Entry],
        name: &Option<FileName>,
    ) -> Result<(), OutputFault>
        ensures { WroteOutputs (S.state shelf.old) (S.state shelf.new) (output_of_journal board.now entries.now name.now) result }
    {
        match name {
            Some(name) => named(name, self.write_text(alloc, shelf, name, entries, board)),
            None => Ok(()),
        }
    }
}

/// Names a file that was refused.
fn named(name: &FileName, wrote: Result<(), StoreFault>) -> Result<(), OutputFault>
    ensures { (before after : ShelfState) (bytes : List ℕ) → Wrote before after name.now bytes wrote
        → WroteOutputs before after (record { name = name.now; bytes = bytes } ∷ []) result }
{
    match wrote {
        Ok(()) => Ok(()),
        Err(StoreFault::Failed) => Err(OutputFault::Failed {
            file: name.copied(),
        }),
        Err(StoreFault::NoMemory) => Err(OutputFault::NoMemory),
    }
}
