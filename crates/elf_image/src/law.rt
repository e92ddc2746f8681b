//! What the test of overlaps means.
ghost use Rattle.std.specs.Prelude.{◌≡◌, ◌↔◌, true};
ghost use Rattle.elf_image.specs.Tests.{SharesByte, shares_byte};
ghost use Rattle.elf_image.specs.declared.segment.ProgramHeader.{ProgramHeader};

/// The test of two memory ranges says that there is an address in both.
#[tactic(auto, using(crate::proofs::Shared::shares_exactly))]
pub fn sharing_means_an_address()
    ensures { (h g : ProgramHeader) → (shares_byte h g ≡ true) ↔ SharesByte h g }
{}
