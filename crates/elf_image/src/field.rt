//! The fields of an ELF32 file, in the byte order that it names.
ghost use Rattle.std.specs.Prelude.{◌≡◌, ◌+◌, ◌≤◌, length};
ghost use Rattle.elf_image.specs.Fields.{number_at, order_of, half, word};

use byteorder::{BigEndian, ByteOrder, LittleEndian};
use core_regs::Order;

/// The byte order that the file names.
pub fn order(file: &[u8]) -> Order
    requires { 52 ≤ length file.now }
    ensures { result ≡ order_of file.now }
{
    if file[5] == 2 {
        Order::Big
    } else {
        Order::Little
    }
}

fn half_at(order: Order, file: &[u8], at: usize) -> u16
    requires { at + 2 ≤ length file.now }
    ensures { result ≡ number_at order 2 at file.now }
{
    match order {
        Order::Big => BigEndian::read_u16(&file[at..]),
        Order::Little => LittleEndian::read_u16(&file[at..]),
    }
}

/// The four bytes at `at` as a number in this byte order.
pub fn word_at(order: Order, file: &[u8], at: usize) -> u32
    requires { at + 4 ≤ length file.now }
    ensures { result ≡ number_at order 4 at file.now }
{
    match order {
        Order::Big => BigEndian::read_u32(&file[at..]),
        Order::Little => LittleEndian::read_u32(&file[at..]),
    }
}

/// The two bytes at `at` as a number, in the file's byte order.
#[tactic(auto, unfolding(crate::specs::Fields::half))]
pub fn file_half(file: &[u8], at: usize) -> u16
    requires header { 52 ≤ length file.now }
    requires within { at + 2 ≤ length file.now }
    ensures { result ≡ half file.now at }
{
    half_at(order(file), file, at)
}

/// The four bytes at `at` as a number, in the file's byte order.
#[tactic(auto, unfolding(crate::specs::Fields::word))]
pub fn file_word(file: &[u8], at: usize) -> u32
    requires header { 52 ≤ length file.now }
    requires within { at + 4 ≤ length file.now }
    ensures { result ≡ word file.now at }
{
    word_at(order(file), file, at)
}
