//! Output files, written by chunks through one buffer.
ghost use Rattle.std.specs.Prelude.{◌≡◌, ◌+◌, ◌≤◌, IfOk, List, ℕ, [], ◌++◌, flat_map, length};
ghost use Rattle.host_io.specs.Outside.{Appends, ShelfState};
ghost use Rattle.piece_output.specs.Stored.{Continues, IsWriting, Wrote};
ghost use Rattle.run_output.specs.Texts.{journal_text};
ghost use Rattle.run_output.specs.Threads.{Knows, Lie, file_of, through};

use crate::pieces::{Exit, FileContent, Lines};
use crate::threads::Threads;
use board_file::BoardFile;
use host_io::{FileName, NoMemory, Shelf, StoreFault};
use run_journal::Entry;
use std::alloc::Global;
use std::marker::Model;

/// The most bytes that one call of a shelf is given.
const SIZE: usize = 65_536;

/// The writer of output files: a buffer of 65,536 bytes. It means the bytes that wait in it.
///
/// All its memory is taken by `reserve`: the other calls take none, and what they answer for want of memory is the
/// shelf's own.
#[derive(Drop)]
pub struct OutputWriter {
    bytes: Vec<u8>,
}

impl Model for OutputWriter {
    ghost use Rattle.std.specs.Prelude.{◌≤◌, List, ℕ, vec_len, vec_capacity};

    ghost Value = { List ℕ };

    ghost view = { λ c. c.bytes.items };

    ghost invariant = { λ c. (vec_len c.bytes ≤ 65536) × (65536 ≤ vec_capacity c.bytes) };
}

impl OutputWriter {
    /// Takes the memory of the buffer. It fails only for want of memory.
    pub fn reserve(alloc: Global) -> Result<OutputWriter, NoMemory>
        ensures { IfOk result (λ chunks. chunks ≡ []) }
    {
        let bytes = Vec::with_capacity(alloc, SIZE)?;
        Ok(OutputWriter { bytes })
    }

    /// Writes the text of a journal: a line for each entry, with the names of a board.
    #[tactic(auto, unfolding(crate::specs::Texts::journal_text))]
    pub fn write_text<S: Shelf>(
        &mut self,
        alloc: Global,
        shelf: &mut S,
        name: &FileName,
        entries: &[Entry],
        board: &BoardFile,
    ) -> Result<(), StoreFault>
        ensures { Wrote (S.state shelf.old) (S.state shelf.new) name.now (journal_text board.now entries.now) result }
    {
        self.start(alloc, shelf, name)?;
        self.add_all(alloc, shelf, name, entries, &Lines { board })?;
        self.finish(alloc, shelf, name)
    }

    /// Writes the file of an exit: what left there. Entries that are not threaded are looked through one by one.
    pub fn write_exit<S: Shelf>(
        &mut self,
        alloc: Global,
        shelf: &mut S,
        name: &FileName,
        entries: &[Entry],
        threads: &Threads,
        exit: Exit,
    ) -> Result<(), StoreFault>
        requires lie { Lie threads.now entries.now }
        requires knows { Knows threads.now exit }
        ensures { Wrote (S.state shelf.old) (S.state shelf.new) name.now (file_of exit entries.now) result }
    {
        let (early, late) = entries.split_at(entries.len() - threads.len());
        self.start(alloc, shelf, name)?;
        self.add_all(alloc, shelf, name, early, &exit)?;
        self.add_thread(alloc, shelf, name, late, threads, exit)?;
        self.finish(alloc, shelf, name)
    }

    /// Begins a file.
    fn start<S: Shelf>(
        &mut self,
        alloc: Global,
        shelf: &mut S,
        name: &FileName,
    ) -> Result<(), StoreFault>
        ensures { Continues (S.state shelf.old) (S.state shelf.new) name.now self.new [] result }
    {
        self.bytes.clear();
        shelf.start(alloc, name.as_text())
    }

    /// Adds what each of these entries adds to a file.
    fn add_all<S: Shelf, P: FileContent>(
        &mut self,
        alloc: Global,
        shelf: &mut S,
        name: &FileName,
        entries: &[Entry],
        pieces: &P,
    ) -> Result<(), StoreFault>
        ensures { (before : ShelfState) (done : List ℕ) → IsWriting before (S.state shelf.old) name.now self.old done
            → Continues before (S.state shelf.new) name.now self.new (done ++ flat_map (P.bytes pieces.now) entries.now) result }
    {
        for k in 0..entries.len() {
            let entry = &entries[k];
            self.add(alloc, shelf, name, pieces.piece(entry).as_bytes())?;
        }
        Ok(())
    }

    /// Adds what left through an exit: the entries of its thread.
    fn add_thread<S: Shelf>(
        &mut self,
        alloc: Global,
        shelf: &mut S,
        name: &FileName,
        entries: &[Entry],
        threads: &Threads,
        exit: Exit,
    ) -> Result<(), StoreFault>
        requires threads { threads.now ≡ through threads.now entries.now }
        requires knows { Knows threads.now exit }
        ensures { (before : ShelfState) (done : List ℕ) → IsWriting before (S.state shelf.old) name.now self.old done
            → Continues before (S.state shelf.new) name.now self.new (done ++ file_of exit entries.now) result }
    {
        let mut left = threads.first(exit);
        while left > 0 {
            let place = entries.len() - left as usize;
            let entry = &entries[place];
            self.add(alloc, shelf, name, exit.piece(entry).as_bytes())?;
            left = threads.next(left);
        }
        Ok(())
    }

    /// Adds bytes of a file that is being written. The buffer is sent where they find no room in it.
    fn add<S: Shelf>(
        &mut self,
        alloc: Global,
        shelf: &mut S,
        name: &FileName,
        bytes: &[u8],
    ) -> Result<(), StoreFault>
        requires { length bytes.now ≤ 65536 }
        ensures { (before : ShelfState) (done : List ℕ) → IsWriting before (S.state shelf.old) name.now self.old done
            → Continues before (S.state shelf.new) name.now self.new (done ++ bytes.now) result }
    {
        let room = SIZE - self.bytes.len();
        if bytes.len() <= room {
            self.keep(bytes);
            return Ok(());
        }
        let (first, rest) = bytes.split_at(room);
        self.keep(first);
        self.send(alloc, shelf, name)?;
        self.keep(rest);
        Ok(())
    }

    /// Sends what is left in the buffer.
    fn finish<S: Shelf>(
        &mut self,
        alloc: Global,
        shelf: &mut S,
        name: &FileName,
    ) -> Result<(), StoreFault>
        ensures { (before : ShelfState) (done : List ℕ) → IsWriting before (S.state shelf.old) name.now self.old done
            → Wrote before (S.state shelf.new) name.now done result }
    {
        if self.bytes.is_empty() {
            return Ok(());
        }
        self.send(alloc, shelf, name)
    }

    /// Appends the buffer to the file, and empties it.
    fn send<S: Shelf>(
        &mut self,
        alloc: Global,
        shelf: &mut S,
        name: &FileName,
    ) -> Result<(), StoreFault>
        ensures sent { Appends (S.state shelf.old) (S.state shelf.new) name.now self.old result }
        ensures empty { self.new ≡ [] }
    {
        let sent = shelf.append(alloc, name.as_text(), self.bytes.as_slice());
        self.bytes.clear();
        sent
    }

    /// Adds bytes for which there is room in the buffer.
    fn keep(&mut self, bytes: &[u8])
        requires { length self.old + length bytes.now ≤ 65536 }
        ensures { self.new ≡ self.old ++ bytes.now }
    {
        let _ = self.bytes.extend_from_slice(bytes);
    }
}
