//! The ELF file of an assembled image.
ghost use Rattle.std.specs.Prelude.{◌≡◌, ◌≤◌, ◌<◌, ◌^◌, IfOk, flat_map, length};
ghost use Rattle.std.specs.List.{All};
ghost use Rattle.asm_image.specs.Built.{IsPlain};
ghost use Rattle.elf_image.specs.Written.{file_of};
ghost use Rattle.elf_image.specs.declared.image.Part.{Part};

use elf_image::{Image, files_are_as_long_as_their_parts, write_elf};
use host_io::{Blob, NoMemory};
use std::alloc::Global;

/// The ELF file of an image whose parts have no zeros behind them, and are as few and as small as those of a source
/// without a fault.
pub fn elf_file(alloc: Global, image: &Image) -> Result<Blob, NoMemory>
    requires plain { All IsPlain image.now.parts }
    requires few { length image.now.parts ≤ 65534 }
    requires bytes { length (flat_map (λ (p : Part). p.bytes) image.now.parts) ≤ 1_048_576 }
    ensures { IfOk result (λ file. file ≡ file_of image.now) }
{
    files_are_as_long_as_their_parts();
    write_elf(alloc, image)
}
