use host_io::FileName;

/// A command, as the words of the command line mean it.
#[derive(Debug, Drop)]
pub enum Command {
    /// `raw FILE CYCLES`: runs the words of a file for at most so many cycles.
    Raw {
        file: FileName,
        cycles: u64,
    },
    /// `run BOARD`: runs a board for at most so many cycles, with room for so many journal entries. The journal goes to
    /// a file where one is named.
    Run {
        board: FileName,
        cycles: u64,
        journal: u32,
        write_journal: Option<FileName>,
    },
    /// `asm SOURCE OUTPUT [--little]`: assembles a source and writes an ELF file, big-endian where nothing else is said.
    Asm {
        source: FileName,
        output: FileName,
        is_little: bool,
    },
    /// `dis IMAGE`: prints the instruction words of an image.
    Dis {
        image: FileName,
    },
    /// `profile BOARD`: runs a board as `run` does, writes no file, and tells what the ticks of each core were spent on.
    Profile {
        board: FileName,
        cycles: u64,
        journal: u32,
    },
    /// `debug BOARD`: runs a script on a board, for at most so many cycles and with room for so many journal entries, and
    /// writes no file.
    Debug {
        board: FileName,
        cycles: u64,
        journal: u32,
    },
    /// `demo N`: runs the ring of a number under three orders.
    Demo {
        number: u32,
    },
}

/// A command whose words are `BOARD [--cycles N] [--journal N]`.
#[derive(Clone, Copy, Debug, PartialEq, Eq)]
pub enum BoardCommand {
    Profile,
    Debug,
}

/// Why words give no command.
#[derive(Clone, Copy, Debug, PartialEq, Eq)]
pub enum WordsFault {
    /// The words mean no command.
    Usage,
    /// There was no memory to split the words.
    NoMemory,
}
