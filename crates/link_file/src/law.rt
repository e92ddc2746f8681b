//! What a file of items holds, and where a file with a fault breaks.
ghost use Rattle.std.specs.Prelude.{◌≡◌, ◌<◌, ◌^◌, ℕ, List, None, Some};
ghost use Rattle.std.specs.List.{All};
ghost use Rattle.axi_link.specs.declared.item.Item.{Item};
ghost use Rattle.link_file.specs.File.{BreaksAt, fault_in, file_of, items_of};

/// The file of some items has no fault, and holds these items.
pub fn files_are_read_back()
    ensures no_fault { (items : List Item) → fault_in (file_of items) ≡ None }
    ensures items { (items : List Item) → All (λ item. item.word < 2 ^ 32) items → items_of (file_of items) ≡ items }
{}

/// A file without fault is the file of the items that it holds.
pub fn files_hold_their_items()
    ensures { (bytes : List ℕ) → All (λ b. b < 256) bytes → fault_in bytes ≡ None → file_of (items_of bytes) ≡ bytes }
{}

/// A fault is told where the file, after some items, goes on with what is no item.
pub fn faults_break_files()
    ensures { (bytes : List ℕ) → (at : ℕ) → All (λ b. b < 256) bytes → fault_in bytes ≡ Some at → BreaksAt bytes at }
{}
