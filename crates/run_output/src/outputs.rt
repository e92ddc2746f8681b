//! What a run of a board puts out, and the memory for it.
ghost use Rattle.std.specs.Prelude.{◌≡◌, IfOk, length};
ghost use Rattle.host_io.specs.Outside.{Adds};
ghost use Rattle.run_output.specs.Outputs.{WroteOutputs, outputs_of};
ghost use Rattle.run_output.specs.Report.{report_text};

use crate::chunks::OutputWriter;
use crate::print::print_report;
use crate::report::CoreEnds;
use crate::tally::Tally;
use crate::threads::Threads;
use board_file::BoardFile;
use host_io::{FileName, NoMemory, Shelf, Sink, StoreFault};
use run_journal::Journal;
use std::alloc::Global;
use std::marker::Model;

/// What a run of a board puts out: its files and its report. It means the board.
///
/// All memory for them is taken by `reserve`, so before the run: what the other calls answer for want of memory is the
/// shelf's or the sink's own. They go over the journal a fixed number of times, whatever the number of files and links.
#[derive(Drop)]
pub struct Outputs {
    board: BoardFile,
    chunks: OutputWriter,
    threads: Threads,
    tally: Tally,
}

impl Model for Outputs {
    ghost use Rattle.std.specs.Prelude.{◌≡◌, length};
    ghost use Rattle.board_file.specs.declared.board.BoardFile.{BoardFile};
    ghost use Rattle.run_output.specs.Tally.{Covers};

    ghost Value = { BoardFile };

    ghost view = { λ o. o.board };

    ghost invariant = { λ o. (length o.threads.links ≡ length o.board.links) × (length o.threads.uarts ≡ length o.board.uarts)
        × Covers o.tally o.board.links × (length o.tally.left ≡ length o.board.uarts) };
}

/// Why not all files of a run were written.
#[derive(Debug, Drop)]
pub enum OutputFault {
    /// This file can't be written. The shelf has counted a fault.
    Failed { file: FileName },
    /// There was no memory for the bytes.
    NoMemory,
}

impl Outputs {
    /// Takes the memory for the outputs of a board whose journal has room for so many entries. It fails only for want of
    /// memory.
    pub fn reserve(alloc: Global, board: BoardFile, entries: u32) -> Result<Outputs, NoMemory>
        ensures { IfOk result (λ o. o ≡ board) }
    {
        let (links, uarts) = (board.links.len(), board.uarts.len());
        let chunks = OutputWriter::reserve(alloc)?;
        let threads = Threads::reserve(alloc, links, uarts, entries)?;
        let tally = Tally::reserve(alloc, board.links.as_slice(), uarts)?;
        Ok(Outputs {
            board,
            chunks,
            threads,
            tally,
        })
    }

    /// The board.
    pub fn board(&self) -> &BoardFile
        ensures { result.now ≡ self.now }
    {
        &self.board
    }

    /// Writes the files of a run: those of the links and then of the UARTs in board order, and then the journal, where
    /// a file is named for it. It stops at the first that is refused.
    pub fn write<S: Shelf>(
        &mut self,
        alloc: Global,
        shelf: &mut S,
        journal: &Journal,
        journal_file: &Option<FileName>,
    ) -> Result<(), OutputFault>
        ensures outputs { WroteOutputs (S.state shelf.old) (S.state shelf.new) (outputs_of self.old journal.now.entries journal_file.now) result }
        ensures board { self.new ≡ self.old }
    {
        let entries = journal.entries();
        self.threads.lay(entries);
        let Outputs {
            board,
            chunks,
            threads,
            ..
        } = self;
        chunks.write_outputs(alloc, shelf, board, entries, threads, journal_file)
    }

    /// Writes the report of a run: its status and cycles, its cores as they stand, and what its entries say of each link
    /// and UART.
    pub fn print_report<O: Sink, E: CoreEnds>(
        &mut self,
        alloc: Global,
        out: &mut O,
        ends: &E,
        journal: &Journal,
        code: u8,
        cycles: u64,
    ) -> Result<(), StoreFault>
        requires { E.count ends.now ≡ length self.old.cores }
        ensures report { Adds (O.state out.old) (O.state out.new) (report_text self.old (E.ends ends.now) journal.now.entries code cycles) result }
        ensures board { self.new ≡ self.old }
    {
        let entries = journal.entries();
        self.tally.count_all(entries);
        let Outputs { board, tally, .. } = self;
        print_report(alloc, out, board, ends, entries, tally, code, cycles)
    }
}
