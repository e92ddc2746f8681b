//! What a load, a store and a copy say of one another.
ghost use Rattle.byte_mem.specs.Access.{bytes_of, fits, loaded, overwritten, stored};
ghost use Rattle.core_regs.specs.declared.causes.Order.{Order};
ghost use Rattle.core_regs.specs.declared.causes.Size.{Size};
ghost use Rattle.std.specs.Prelude.{length, slice_get, slice_range, IsTrue, List, ℕ, ◌≡◌, ◌+◌, ◌*◌, ◌%◌, ◌^◌, ◌<◌, ◌≤◌, ◌⊎◌};

/// Loads and stores make a map from address to byte. A load of what was stored at its address, with its size and order,
/// gives the low bits of the value. Every other byte stays, and so does the size.
pub fn store_laws()
    ensures reads_back { (m : List ℕ) (size : Size) (order : Order) (addr value : ℕ) → IsTrue (fits m addr (bytes_of size)) → loaded (stored m size order addr value) size order addr ≡ Some (value % 2 ^ (8 * bytes_of size)) }
    ensures elsewhere { (m : List ℕ) (size : Size) (order : Order) (addr value k : ℕ) → (k < addr) ⊎ (addr + bytes_of size ≤ k) → slice_get (stored m size order addr value) k ≡ slice_get m k }
    ensures size { (m : List ℕ) (size : Size) (order : Order) (addr value : ℕ) → length (stored m size order addr value) ≡ length m }
{}

/// The same of a copy of bytes.
pub fn copy_laws()
    ensures reads_back { (m : List ℕ) (addr : ℕ) (bytes : List ℕ) → addr + length bytes ≤ length m → slice_range (overwritten m addr bytes) addr (addr + length bytes) ≡ bytes }
    ensures elsewhere { (m : List ℕ) (addr : ℕ) (bytes : List ℕ) (k : ℕ) → (k < addr) ⊎ (addr + length bytes ≤ k) → slice_get (overwritten m addr bytes) k ≡ slice_get m k }
    ensures size { (m : List ℕ) (addr : ℕ) (bytes : List ℕ) → length (overwritten m addr bytes) ≡ length m }
{}
