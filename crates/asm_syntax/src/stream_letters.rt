ghost use Rattle.std.specs.Prelude.{◌≡◌, ◌+◌, ◌<◌, ◌≤◌, ◌++◌, length};
ghost use Rattle.asm_syntax.specs.Spelling.{letter, letters};

use host_io::ShortText;

/// Adds the letter of a flag, where it is set.
fn add_letter(text: &mut ShortText, flags: u8, bit: u8, name: &[u8])
    requires some { 0 < bit }
    requires one { length name.now ≤ 1 }
    requires room { length text.old ≤ 60 }
    ensures added { text.new ≡ text.old ++ letter bit flags name.now }
    ensures short { length text.new ≤ length text.old + 1 }
{
    if flags / bit % 2 == 1 {
        text.push(name);
    }
}

/// The letters of a stream access: t, n, e, c, a.
pub fn letters(flags: u8) -> ShortText
    ensures letters { result ≡ letters flags }
    ensures short { length result ≤ 5 }
{
    let mut text = ShortText::new();
    add_letter(&mut text, flags, 4, b"t");
    add_letter(&mut text, flags, 16, b"n");
    add_letter(&mut text, flags, 1, b"e");
    add_letter(&mut text, flags, 8, b"c");
    add_letter(&mut text, flags, 2, b"a");
    text
}
