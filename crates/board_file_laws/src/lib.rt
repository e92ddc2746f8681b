//! What a board that was read from a file always keeps, for those that build a machine from it.
#![tactic(auto)]

ghost use Rattle.board_file_laws.specs.Sound.{ReadIsSound};

/// Each board that `read_board` answers is sound: it has 1 to 16 cores and at most 64 links in version 1, and 1 to 64
/// and at most 256 in version 2, its clocks, memories, depths, ports and cycles are in their ranges, the clocks of its
/// devices are 1 in version 1, each place of a core that a link or an event names is there, no link
/// has files at both ends, no two links begin at one port or end at one, no two links or UARTs have one output file, no
/// output file is an image or an input, and the names of its cores, links and events ascend.
pub fn read_boards_are_sound()
    ensures { ReadIsSound }
{}
