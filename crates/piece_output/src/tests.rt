//! Files in memory, whose calls fail where they are told to.
use crate::write_file;
use host_io::{Failing, FileName, MemFile, MemShelf, StoreFault, first_of};
use std::alloc::Global;
use std::test::Fail;

/// A shelf with the file `old` of three bytes, whose call of this number fails after so many bytes.
fn shelf(alloc: Global, failing: Option<Failing>) -> Result<MemShelf, Fail> {
    let mut files = Vec::new(alloc);
    files.push(MemFile {
        name: FileName::from_text("old").ok_or("name")?,
        bytes: Vec::from_slice(alloc, b"abc")?,
    })?;
    let mut plan = Vec::new(alloc);
    if let Some(call) = failing {
        plan.push(call)?;
    }
    Ok(MemShelf::new(files, plan))
}

/// Expected: the answer and the bytes of the file, by the contract of a shelf: one `start`, and an `append` for each 65,536
/// bytes or rest.
#[test]
fn files_are_written_in_pieces(rt: HostRuntime) -> Result<(), Fail> {
    let alloc = rt.alloc();
    let bytes = vec![in alloc; 7u8; 131_073]?;
    let name = FileName::from_text("old").ok_or("name")?;
    for (count, failing, wanted, left) in [
        (0usize, None, Ok(()), 0usize),
        (65_536, None, Ok(()), 65_536),
        (131_073, None, Ok(()), 131_073),
        (
            5,
            Some(Failing { call: 0, moved: 0 }),
            Err(StoreFault::Failed),
            3,
        ),
        (
            131_073,
            Some(Failing { call: 2, moved: 10 }),
            Err(StoreFault::Failed),
            65_546,
        ),
        (
            131_073,
            Some(Failing { call: 3, moved: 0 }),
            Err(StoreFault::Failed),
            131_072,
        ),
        (65_536, Some(Failing { call: 2, moved: 0 }), Ok(()), 65_536),
    ] {
        let mut shelf = shelf(alloc, failing)?;
        let answer = write_file(alloc, &mut shelf, &name, first_of(bytes.as_slice(), count));
        assert!(rt; answer == wanted, "{count}: {answer:?}");
        let content = shelf.content("old").ok_or("file")?;
        assert!(rt; content.len() == left, "{count}: {}", content.len());
    }
    Ok(())
}
