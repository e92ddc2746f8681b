//! The line of a profile.

ghost use Rattle.std.specs.Prelude.{◌≡◌, ◌+◌, ◌≤◌, ◌++◌, length};
ghost use Rattle.board_profile.specs.Lines.{count_words, profile_line};
ghost use Rattle.board_profile.specs.Profiles.{counts_of};

use crate::profile::Profile;
use host_io::{Name, Text};
use run_journal::{add_number, add_word};

/// A line of a profile, of at most 512 bytes.
pub type ProfileLine = Text<512>;

/// The line of a core: its name, and each count behind its word.
#[tactic(auto, unfolding(crate::specs::Lines::profile_line))]
pub fn profile_line(name: &Name, profile: &Profile) -> ProfileLine
    ensures { result ≡ profile_line name.now (counts_of profile.now) }
{
    let mut line = ProfileLine::new();
    line.push(b"profile");
    add_word(&mut line, name.as_bytes());
    add_count(&mut line, b"acted", profile.acted);
    add_count(&mut line, b"start", profile.start);
    add_count(&mut line, b"hold", profile.hold);
    add_count(&mut line, b"operand", profile.operand);
    add_count(&mut line, b"redirect", profile.redirect);
    add_count(&mut line, b"divide", profile.divide);
    add_count(&mut line, b"waiting", profile.waiting);
    add_count(&mut line, b"sleeping", profile.sleeping);
    add_count(&mut line, b"done", profile.done);
    line.push(b"\n");
    line
}

/// Adds a word and the count that it names.
fn add_count(line: &mut ProfileLine, word: &[u8], count: u64)
    requires word { length word.now ≤ 8 }
    requires room { length line.old + 30 ≤ 512 }
    ensures added { line.new ≡ line.old ++ count_words word.now count }
    ensures short { length line.new ≤ length line.old + 30 }
{
    add_word(line, word);
    add_number(line, count);
}
