//! Lines: a line feed ends one, and a carriage return directly before it belongs to that end.
ghost use Rattle.std.specs.Prelude.{◌≡◌, ◌≤◌, ◌==◌, not, drop, length};
ghost use Rattle.std.specs.List.{take_while};
ghost use Rattle.asm_reading.specs.Lines.{first_line, line_len, without_return};

/// The bytes from a place on.
pub fn rest_of(source: &[u8], at: usize) -> &[u8]
    requires { at ≤ length source.now }
    ensures { result.now ≡ drop at source.now }
{
    &source[at..]
}

/// How many bytes stand before the first line feed.
pub fn line_len(text: &[u8]) -> usize
    ensures len { result ≡ line_len text.now }
    ensures within { result ≤ length text.now }
{
    text.iter().take_while(|byte| **byte != b'\n').count()
}

/// A line without the carriage return at its end.
fn without_return(line: &[u8]) -> &[u8]
    ensures line { result.now ≡ without_return line.now }
    ensures within { length result.now ≤ length line.now }
{
    let len = line.len();
    if 0 < len && line[len - 1] == b'\r' {
        &line[..len - 1]
    } else {
        line
    }
}

/// The line with which a text begins, which has so many bytes before its line feed.
#[tactic(auto, unfolding(crate::specs::Lines::first_line))]
pub fn first_line(text: &[u8], len: usize) -> &[u8]
    requires len { len ≡ line_len text.now }
    requires within { len ≤ length text.now }
    ensures line { result.now ≡ first_line text.now }
    ensures within { length result.now ≤ length text.now }
{
    let line = &text[..len];
    if len < text.len() {
        without_return(line)
    } else {
        line
    }
}
