// What no clause says: that calls can succeed, and what the operating system does with real files.
use crate::{
    Blob, DirShelf, Failing, FileName, LoadFault, MemFile, MemShelf, MemSink, MemSource, Name,
    Place, ReadFailed, Shelf, Sink, Source, StdSink, StdSource, StoreFault, SureShelf, SureSink,
    SureSource, is_file_name, read_whole,
};
use std::alloc::Global;
use std::fs;
use std::io::{self, ErrorKind, Read, Write};
use std::test::Fail;

#[test]
fn names_follow_their_rules(rt: HostRuntime) {
    let long = "abcdefghijklmnopqrstuvwxyz_0123456789-ABCDEFGHIJKLMNOPQRSTUVWXYZ./";
    let rows = [
        ("", false, false),
        ("a", true, true),
        ("abcdefghijklmnopqrstuvwx", true, true),
        ("abcdefghijklmnopqrstuvwxy", false, true),
        ("-a", true, false),
        ("a-", true, true),
        ("/dir/a.b_0", true, true),
        ("a b", true, false),
        ("é", true, false),
        (&long[..64], false, true),
        (&long[..65], false, false),
    ];
    for (text, is_name, is_file) in rows {
        assert_eq!(rt; Name::from_text(text).is_some(), is_name, "{text}");
        assert_eq!(rt; FileName::from_text(text).is_some(), is_file, "{text}");
        assert_eq!(rt; is_file_name(text.as_bytes()), is_file, "{text}");
    }
    let place = Place::from_bytes(&long.as_bytes()[..60]).with(b".field");
    assert_eq!(rt;
        place.as_bytes(),
        b"abcdefghijklmnopqrstuvwxyz_0123456789-ABCDEFGHIJKLMNOPQRSTUV.fie".as_slice()
    );
}

/// Two files in memory.
fn two_files(alloc: Global) -> Result<Vec<MemFile>, Fail> {
    let mut files = Vec::new(alloc);
    for (name, bytes) in [("a", b"one"), ("b", b"two")] {
        files.push(MemFile {
            name: FileName::from_text(name).ok_or("name")?,
            bytes: Vec::from_slice(alloc, bytes)?,
        })?;
    }
    Ok(files)
}

/// One call that is to fail.
fn failing(alloc: Global, call: u64, moved: usize) -> Result<Vec<Failing>, Fail> {
    Ok(Vec::from_slice(alloc, &[Failing { call, moved }])?)
}

#[test]
fn a_shelf_in_memory_keeps_files(rt: HostRuntime) -> Result<(), Fail> {
    let alloc = rt.alloc();
    let mut shelf = SureShelf::new(two_files(alloc)?);
    assert_eq!(rt;
        shelf.load(alloc, "a", 3).map_err(|_| "load")?.as_slice(),
        b"one".as_slice()
    );
    assert_eq!(rt; shelf.load(alloc, "a", 2).err(), Some(LoadFault::TooLong));
    assert_eq!(rt; shelf.load(alloc, "c", 2).err(), Some(LoadFault::Failed));
    assert_eq!(rt; shelf.append(alloc, "c", b"x"), Err(StoreFault::Failed));
    assert_eq!(rt; shelf.start(alloc, "c"), Ok(()));
    assert_eq!(rt; shelf.append(alloc, "c", b"x"), Ok(()));
    assert_eq!(rt; shelf.append(alloc, "b", b"!"), Ok(()));
    assert_eq!(rt; shelf.start(alloc, "a"), Ok(()));
    assert_eq!(rt; shelf.content("a"), Some(b"".as_slice()));
    assert_eq!(rt; shelf.content("b"), Some(b"two!".as_slice()));
    assert_eq!(rt; shelf.content("c"), Some(b"x".as_slice()));
    Ok(())
}

#[test]
fn a_planned_fault_moves_its_bytes(rt: HostRuntime) -> Result<(), Fail> {
    let alloc = rt.alloc();
    let mut shelf = MemShelf::new(two_files(alloc)?, failing(alloc, 1, 2)?);
    assert_eq!(rt; shelf.append(alloc, "a", b"123"), Ok(()));
    assert_eq!(rt; shelf.append(alloc, "a", b"456"), Err(StoreFault::Failed));
    assert_eq!(rt; shelf.append(alloc, "a", b"789"), Ok(()));
    assert_eq!(rt; shelf.content("a"), Some(b"one12345789".as_slice()));

    let mut sink = MemSink::new(Vec::from_slice(alloc, b"-")?, failing(alloc, 1, 9)?);
    assert_eq!(rt; sink.write_all(alloc, b"ab"), Ok(()));
    assert_eq!(rt; sink.write_all(alloc, b"cd"), Err(StoreFault::Failed));
    assert_eq!(rt; sink.write_all(alloc, b"ef"), Ok(()));
    assert_eq!(rt; sink.written(), b"-abcdef".as_slice());

    let mut source = MemSource::new(Vec::from_slice(alloc, b"abc")?, failing(alloc, 1, 0)?);
    let mut buffer = [0; 2];
    assert_eq!(rt; source.read(&mut buffer), Ok(2));
    assert_eq!(rt; source.read(&mut buffer), Err(ReadFailed));
    assert_eq!(rt; buffer, [b'a', b'b']);
    assert_eq!(rt; source.read(&mut buffer), Ok(1));
    assert_eq!(rt; buffer[0], b'c');
    assert_eq!(rt; source.read(&mut buffer), Ok(0));
    Ok(())
}

#[test]
fn streams_that_are_sure_move_bytes(rt: HostRuntime) -> Result<(), Fail> {
    let alloc = rt.alloc();
    let mut source = SureSource::new(Vec::from_slice(alloc, b"ab")?);
    let mut sink = SureSink::new(Vec::new(alloc));
    let mut buffer = [0; 8];
    let count = source.read(&mut buffer).map_err(|_| "read")?;
    assert_eq!(rt; sink.write_all(alloc, &buffer[..count]), Ok(()));
    assert_eq!(rt; sink.written(), b"ab".as_slice());
    Ok(())
}

/// A call on the real files.
#[derive(Drop)]
enum Call<'a> {
    Start,
    Append(&'a [u8]),
    Load(usize),
}

/// What a call on the real files answers: the bytes of a load, and none of the others.
fn answer(
    shelf: &mut DirShelf<HostRuntime>,
    alloc: Global,
    file: &FileName,
    call: &Call,
) -> Result<Blob, LoadFault> {
    let name = file.as_text();
    let done = match call {
        Call::Start => shelf.start(alloc, name),
        Call::Append(bytes) => shelf.append(alloc, name, bytes),
        Call::Load(limit) => return shelf.load(alloc, name, *limit),
    };
    match done {
        Ok(()) => Ok(Blob::from_vec(Vec::new(alloc))),
        Err(StoreFault::Failed) => Err(LoadFault::Failed),
        Err(StoreFault::NoMemory) => Err(LoadFault::NoMemory),
    }
}

#[test]
fn real_files_are_read_and_written(rt: HostRuntime) -> Result<(), Fail> {
    let alloc = rt.alloc();
    let mut shelf = DirShelf::new(&rt);
    let (file, long) = ("host_io_test.bin", [7; 4097]);
    let (nothing, failed, too_long) = (
        Ok(b"".as_slice()),
        Err(LoadFault::Failed),
        Err(LoadFault::TooLong),
    );
    let rows = [
        (file, Call::Append(b"x"), failed),
        (file, Call::Load(9), failed),
        (file, Call::Start, nothing),
        (file, Call::Load(0), nothing),
        (file, Call::Append(b"one"), nothing),
        (file, Call::Append(b"two"), nothing),
        (file, Call::Load(6), Ok(b"onetwo".as_slice())),
        (file, Call::Load(5), too_long),
        (file, Call::Start, nothing),
        (file, Call::Load(9), nothing),
        (file, Call::Append(&long), nothing),
        (file, Call::Load(4097), Ok(long.as_slice())),
        (file, Call::Load(4096), too_long),
        // a folder in the place of a file
        (".", Call::Load(9), failed),
        (".", Call::Start, failed),
        (".", Call::Append(b"x"), failed),
        ("no_such_folder/a", Call::Start, failed),
        // a file that nobody may write
        ("/proc/version", Call::Append(b"x"), failed),
    ];
    for (row, (name, call, expected)) in rows.iter().enumerate() {
        let name = FileName::from_text(name).ok_or("name")?;
        let answered = answer(&mut shelf, alloc, &name, call);
        assert_eq!(rt;
            answered
                .as_ref()
                .map(|blob| blob.as_slice())
                .map_err(|fault| *fault),
            *expected,
            "{row}"
        );
    }
    assert_eq!(rt; shelf.faults.load_faults, 2);
    assert_eq!(rt; shelf.faults.write_faults, 5);
    assert_eq!(rt;
        shelf
            .faults
            .bad
            .is_some_and(|bad| bad.as_text() == "/proc/version"),
        true
    );
    fs::remove_file(&rt, file)?;
    Ok(())
}

/// A stream that breaks at each call.
#[derive(Drop)]
struct Broken;

impl Read for Broken {
    fn read(&mut self, _buf: &mut [u8]) -> io::Result<usize> {
        Err(ErrorKind::Other.into())
    }
}

impl Write for Broken {
    fn write(&mut self, _buf: &[u8]) -> io::Result<usize> {
        Err(ErrorKind::Other.into())
    }

    fn flush(&mut self) -> io::Result<()> {
        Ok(())
    }
}

/// A writer that takes a byte at a time, and is interrupted before each.
#[derive(Drop)]
struct Drips {
    taken: Vec<u8>,
    is_ready: bool,
}

impl Write for Drips {
    fn write(&mut self, buf: &[u8]) -> io::Result<usize> {
        self.is_ready = !self.is_ready;
        if self.is_ready {
            return Err(ErrorKind::Interrupted.into());
        }
        let count = buf.len().min(1);
        self.taken.extend_from_slice(&buf[..count])?;
        Ok(count)
    }

    fn flush(&mut self) -> io::Result<()> {
        Ok(())
    }
}

#[test]
fn a_reader_is_a_source(rt: HostRuntime) {
    let mut source = StdSource::new(b"abc".as_slice());
    let mut buffer = [0; 2];
    assert_eq!(rt; source.read(&mut buffer), Ok(2));
    assert_eq!(rt; buffer, [b'a', b'b']);
    assert_eq!(rt; source.read(&mut buffer), Ok(1));
    assert_eq!(rt; source.read(&mut buffer), Ok(0));
    assert_eq!(rt; StdSource::new(Broken).read(&mut buffer), Err(ReadFailed));
    let mut whole = StdSource::new(b"abc".as_slice());
    assert_eq!(rt;
        read_whole(&mut whole, rt.alloc(), 2).err(),
        Some(LoadFault::TooLong)
    );
}

#[test]
fn a_writer_is_a_sink(rt: HostRuntime) -> Result<(), Fail> {
    let alloc = rt.alloc();
    let mut written = [0; 3];
    let mut sink = StdSink::new(written.as_mut_slice());
    assert_eq!(rt; sink.write_all(alloc, b"ab"), Ok(()));
    assert_eq!(rt; sink.write_all(alloc, b"cd"), Err(StoreFault::Failed));
    assert_eq!(rt; written, [b'a', b'b', b'c']);
    let mut drips = Drips {
        taken: Vec::new(alloc),
        is_ready: false,
    };
    assert_eq!(rt; StdSink::new(&mut drips).write_all(alloc, b"abc"), Ok(()));
    assert_eq!(rt; drips.taken.as_slice(), b"abc".as_slice());
    assert_eq!(rt;
        StdSink::new(Broken).write_all(alloc, b"x"),
        Err(StoreFault::Failed)
    );
    Ok(())
}
