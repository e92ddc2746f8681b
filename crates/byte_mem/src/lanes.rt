//! The four bytes of a word, by the place that each has in it.
ghost use Rattle.byte_mem.specs.Access.{bytes_of, encoded, number, overwritten};
ghost use Rattle.std.specs.Prelude.{slice_range, ◌≡◌, ◌+◌, ◌≤◌};

use core_regs::{Order, Size};

/// The four bytes of a word in the order of their addresses, so that an aligned access meets one word.
pub(crate) type Word = [u8; 4];

/// How many bytes an access has.
#[inline(always)]
pub fn bytes_of(size: Size) -> u32
    ensures value { result ≡ bytes_of size }
    ensures some { 1 ≤ result }
{
    match size {
        Size::Byte => 1,
        Size::Half => 2,
        Size::Word => 4,
    }
}

/// The number that `size` bytes from place `at` on stand for.
pub(crate) fn read_lanes(word: Word, at: usize, size: Size, order: Order) -> u32
    requires { at + bytes_of size ≤ 4 }
    ensures { result ≡ number order size (slice_range word at (at + bytes_of size)) }
{
    match (size, order) {
        (Size::Byte, _) => u32::from(word[at]),
        (Size::Half, Order::Big) => u32::from(u16::from_be_bytes([word[at], word[at + 1]])),
        (Size::Half, Order::Little) => u32::from(u16::from_le_bytes([word[at], word[at + 1]])),
        (Size::Word, Order::Big) => u32::from_be_bytes(word),
        (Size::Word, Order::Little) => u32::from_le_bytes(word),
    }
}

/// Writes the low bytes of `value` from place `at` on.
pub(crate) fn write_lanes(word: &mut Word, at: usize, size: Size, order: Order, value: u32)
    requires { at + bytes_of size ≤ 4 }
    ensures { word.new ≡ overwritten word.old at (encoded order size value) }
{
    match size {
        Size::Byte => word[at] = (value & 0xFF) as u8,
        Size::Half => {
            let [first, second] = half_bytes(order, (value & 0xFFFF) as u16);
            word[at] = first;
            word[at + 1] = second;
        }
        Size::Word => write_word(word, order, value),
    }
}

/// The bytes of a half, in the order of their addresses.
fn half_bytes(order: Order, half: u16) -> [u8; 2]
    ensures { result ≡ encoded order Size.Half half }
{
    match order {
        Order::Big => half.to_be_bytes(),
        Order::Little => half.to_le_bytes(),
    }
}

/// Writes a word. Each byte order has its own write, since the compiler makes one exchange of bytes of it then.
fn write_word(word: &mut Word, order: Order, value: u32)
    ensures { word.new ≡ encoded order Size.Word value }
{
    match order {
        Order::Big => *word = value.to_be_bytes(),
        Order::Little => *word = value.to_le_bytes(),
    }
}
