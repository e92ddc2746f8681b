//! A list of files in memory.
ghost use Rattle.std.specs.Prelude.{◌≡◌, OnOk, OnErr, IfNone, IfSome, IsTrue, option_copied};
ghost use Rattle.host_io.specs.Names.{is_file_name};
ghost use Rattle.host_io.specs.MemFiles.{IsFirst, IsAbsent, lookup};
ghost use Rattle.host_io.specs.Outside.{Empties, Grows, SameFiles};

use crate::{FileName, StoreFault};
use std::alloc::{AllocError, Global};

/// A file: its name and its content.
#[derive(Drop)]
pub struct MemFile {
    pub name: FileName,
    pub bytes: Vec<u8>,
}

/// The place of the first file with a name.
fn place_of(files: &[MemFile], name: &str) -> Option<usize>
    ensures found { IfSome result (IsFirst files.now name.now) }
    ensures absent { IfNone result (IsAbsent files.now name.now) }
{
    for (place, file) in files.iter().enumerate() {
        if file.name.as_text() == name {
            return Some(place);
        }
    }
    None
}

/// The content of a file.
pub fn content_of<'a>(files: &'a [MemFile], name: &str) -> Option<&'a [u8]>
    ensures { option_copied result ≡ lookup files.now name.now }
{
    let place = place_of(files, name)?;
    Some(files[place].bytes.as_slice())
}

/// Makes a file empty, and makes it where it isn't there. For want of memory nothing changes.
pub fn empty_file(files: &mut Vec<MemFile>, alloc: Global, name: &str) -> Result<(), AllocError>
    requires { IsTrue (is_file_name name.now) }
    ensures ok { OnOk result (Empties name.now (lookup files.old.items) (lookup files.new.items)) }
    ensures err { OnErr result (files.new.items ≡ files.old.items) }
{
    match place_of(files, name) {
        Some(place) => {
            let file = &mut files[place];
            file.bytes.clear();
        }
        None => {
            let bytes = Vec::new(alloc);
            let name = FileName::of(name);
            files.push(MemFile { name, bytes })?;
        }
    }
    Ok(())
}

/// Adds bytes at a file's end. It fails only where the file isn't there; after a refusal nothing changed.
pub fn extend_file(files: &mut Vec<MemFile>, name: &str, bytes: &[u8]) -> Result<(), StoreFault>
    ensures ok { OnOk result (Grows name.now bytes.now (lookup files.old.items) (lookup files.new.items)) }
    ensures absent { result ≡ Err StoreFault.Failed → lookup files.old.items name.now ≡ None }
    ensures err { OnErr result (SameFiles (lookup files.old.items) (lookup files.new.items)) }
{
    let Some(place) = place_of(files, name) else {
        return Err(StoreFault::Failed);
    };
    let file = &mut files[place];
    file.bytes.extend_from_slice(bytes)?;
    Ok(())
}
