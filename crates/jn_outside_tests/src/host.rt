//! Sources, sinks and keepers: in memory, over readers and writers, over files.

use jn_host::{
    Failed, FileKeeper, KeepFailure, Keeper, MemoryKeeper, MemorySink, MemorySource, Sink, Source,
    StandardInput, StandardOutput,
};
use std::alloc::Allocator;
use std::fs::{Metadata, OpenFile, OpenOptions};
use std::io::{Cursor, ErrorKind, SeekFrom};
use std::os::unix::fs::symlink;
use std::rt::Files;
use std::test::Fail;
use std::{fs, io};

/// A reader and writer that always fails.
#[derive(Drop)]
struct Broken;

impl io::Read for Broken {
    fn read(&mut self, _into: &mut [u8]) -> io::Result<usize> {
        Err(io::Error::from(ErrorKind::Other))
    }
}

impl io::Write for Broken {
    fn write(&mut self, _from: &[u8]) -> io::Result<usize> {
        Err(io::Error::from(ErrorKind::Other))
    }

    fn flush(&mut self) -> io::Result<()> {
        Err(io::Error::from(ErrorKind::Other))
    }
}

/// A writer that takes every byte, and can't be flushed.
#[derive(Drop)]
struct Unflushed;

impl io::Write for Unflushed {
    fn write(&mut self, from: &[u8]) -> io::Result<usize> {
        Ok(from.len())
    }

    fn flush(&mut self) -> io::Result<()> {
        Err(io::Error::from(ErrorKind::Other))
    }
}

/// A call on files.
#[derive(Clone, Copy, PartialEq, Eq)]
enum Step {
    Open,
    Write,
    Sync,
    Rename,
}

impl Step {
    /// Refuses the call that is to fail.
    fn refuse(self, call: Step) -> io::Result<()> {
        if self == call {
            Err(io::Error::from(ErrorKind::PermissionDenied))
        } else {
            Ok(())
        }
    }
}

/// Files of which one kind of call fails.
#[derive(Drop)]
struct Faulty<R> {
    files: R,
    failing: Step,
}

/// A file of them.
#[derive(Drop)]
struct FaultyFile<F> {
    file: F,
    failing: Step,
}

impl<R: Alloc> Alloc for Faulty<R> {
    type A = R::A;

    fn alloc(&self) -> R::A {
        self.files.alloc()
    }
}

impl<R: Files> Files for Faulty<R> {
    type File = FaultyFile<R::File>;

    type Dir = R::Dir;

    fn open_file(&self, how: &OpenOptions, path: &str) -> io::Result<FaultyFile<R::File>> {
        self.failing.refuse(Step::Open)?;
        Ok(FaultyFile {
            file: self.files.open_file(how, path)?,
            failing: self.failing,
        })
    }

    fn open_dir(&self, path: &str) -> io::Result<R::Dir> {
        self.files.open_dir(path)
    }

    fn metadata(&self, path: &str) -> io::Result<Metadata> {
        self.files.metadata(path)
    }

    fn symlink_metadata(&self, path: &str) -> io::Result<Metadata> {
        self.files.symlink_metadata(path)
    }

    fn copy(&self, from: &str, to: &str) -> io::Result<u64> {
        self.files.copy(from, to)
    }

    fn rename(&self, from: &str, to: &str) -> io::Result<()> {
        self.failing.refuse(Step::Rename)?;
        self.files.rename(from, to)
    }

    fn remove_file(&self, path: &str) -> io::Result<()> {
        self.files.remove_file(path)
    }

    fn create_dir(&self, path: &str) -> io::Result<()> {
        self.files.create_dir(path)
    }

    fn remove_dir(&self, path: &str) -> io::Result<()> {
        self.files.remove_dir(path)
    }

    fn remove_dir_all<B: Allocator>(&self, alloc: B, path: &str) -> io::Result<()> {
        self.files.remove_dir_all(alloc, path)
    }
}

impl<F: io::Read> io::Read for FaultyFile<F> {
    fn read(&mut self, into: &mut [u8]) -> io::Result<usize> {
        self.file.read(into)
    }
}

impl<F: io::Write> io::Write for FaultyFile<F> {
    fn write(&mut self, from: &[u8]) -> io::Result<usize> {
        self.failing.refuse(Step::Write)?;
        self.file.write(from)
    }

    fn flush(&mut self) -> io::Result<()> {
        self.file.flush()
    }
}

impl<F: io::Seek> io::Seek for FaultyFile<F> {
    fn seek(&mut self, to: SeekFrom) -> io::Result<u64> {
        self.file.seek(to)
    }
}

impl<F: OpenFile> OpenFile for FaultyFile<F> {
    fn metadata(&self) -> io::Result<Metadata> {
        self.file.metadata()
    }

    fn set_len(&self, size: u64) -> io::Result<()> {
        self.file.set_len(size)
    }

    fn sync_all(&self) -> io::Result<()> {
        self.failing.refuse(Step::Sync)?;
        self.file.sync_all()
    }

    fn sync_data(&self) -> io::Result<()> {
        self.failing.refuse(Step::Sync)?;
        self.file.sync_data()
    }
}

#[test]
fn a_memory_source_gives_its_bytes_in_pieces(rt: HostRuntime) -> Result<(), Fail> {
    let alloc = rt.alloc();
    let bytes = Vec::from_slice(alloc, b"stable page")?;
    let failing = Vec::from_slice(alloc, &[2, 5])?;
    let mut source = MemorySource::new(bytes, failing, 4);
    let mut room = [b'.'; 6];
    let calls = [Ok(4), Err(Failed), Ok(4), Ok(3), Err(Failed), Ok(0)];
    let rooms = [
        b"stab..", b"stab..", b"le p..", b"agep..", b"agep..", b"agep..",
    ];
    for (answer, filled) in calls.into_iter().zip(rooms) {
        assert_eq!(rt; source.read(&mut room), answer);
        assert_eq!(rt; room.as_slice(), filled.as_slice());
    }
    Ok(())
}

#[test]
fn a_memory_sink_takes_pieces_in_order(rt: HostRuntime) -> Result<(), Fail> {
    let alloc = rt.alloc();
    let failing = Vec::from_slice(alloc, &[2])?;
    let mut sink = MemorySink::new(alloc, failing, 4);
    let pieces = [b"stable".as_slice(), b"le", b"le", b"", b" page"];
    let calls = [Ok(4), Err(Failed), Ok(2), Ok(0), Ok(4)];
    for (piece, answer) in pieces.into_iter().zip(calls) {
        assert_eq!(rt; sink.write(piece), answer);
    }
    assert_eq!(rt; sink.taken(), b"stable pag".as_slice());
    Ok(())
}

#[test]
fn a_memory_keeper_holds_what_was_saved_last(rt: HostRuntime) -> Result<(), Fail> {
    let alloc = rt.alloc();
    let failing_loads = Vec::from_slice(alloc, &[2])?;
    let failing_saves = Vec::from_slice(alloc, &[3])?;
    let mut keeper = MemoryKeeper::new(alloc, failing_loads, failing_saves);
    assert_eq!(rt; keeper.save("a.0", b"old"), Ok(()));
    assert_eq!(rt; keeper.save("a.0", b"new"), Ok(()));
    assert_eq!(rt; keeper.save("a.1", b"none"), Err(KeepFailure::Failed));
    assert_eq!(rt; keeper.save("a.2", b"last"), Ok(()));
    let held = [
        ("a.0", Some(b"new".as_slice())),
        ("a.1", None),
        ("a.2", Some(b"last")),
    ];
    for (name, bytes) in held {
        assert_eq!(rt; keeper.get(name), bytes);
    }
    let found = keeper.load(alloc, "a.2")?;
    assert_eq!(rt; found.as_deref(), Some(b"last".as_slice()));
    assert_eq!(rt; keeper.load(alloc, "a.2"), Err(KeepFailure::Failed));
    assert_eq!(rt; keeper.load(alloc, "a.1"), Ok(None));
    Ok(())
}

#[test]
fn a_reader_is_a_source(rt: HostRuntime) {
    let mut source = StandardInput::new(b"page".as_slice());
    let mut room = [0; 3];
    assert_eq!(rt; source.read(&mut room), Ok(3));
    assert_eq!(rt; room, *b"pag");
    assert_eq!(rt; source.read(&mut room), Ok(1));
    assert_eq!(rt; room[0], b'e');
    assert_eq!(rt; source.read(&mut room), Ok(0));
    assert_eq!(rt; StandardInput::new(Broken).read(&mut room), Err(Failed));
    assert_eq!(rt; StandardInput::new(rt.reader()).read(&mut []), Ok(0));
}

#[test]
fn a_writer_is_a_sink(rt: HostRuntime) {
    let mut place = [b'.'; 5];
    let mut sink = StandardOutput::new(Cursor::new(place.as_mut_slice()));
    assert_eq!(rt; sink.write(b"pag"), Ok(3));
    assert_eq!(rt; sink.write(b"es."), Ok(2));
    assert_eq!(rt; sink.write(b"none"), Err(Failed));
    assert_eq!(rt; sink.write(b""), Ok(0));
    assert_eq!(rt; place, *b"pages");
    assert_eq!(rt; StandardOutput::new(Broken).write(b"none"), Err(Failed));
    assert_eq!(rt; StandardOutput::new(Unflushed).write(b"none"), Err(Failed));
    assert_eq!(rt; StandardOutput::new(io::writer(&rt)).write(b""), Ok(0));
}

#[test]
fn a_file_is_kept_whole(rt: HostRuntime) -> Result<(), Fail> {
    let alloc = rt.alloc();
    let name = "jn_host_kept.0";
    let mut keeper = FileKeeper::new(&rt);
    assert_eq!(rt; keeper.save(name, b"long and old"), Ok(()));
    fs::write(
        &rt,
        "jn_host_kept.0.new",
        "left by a program that was killed",
    )?;
    assert_eq!(rt; keeper.save(name, b"new"), Ok(()));
    assert_eq!(rt; keeper.load(alloc, "jn_host_kept.0.new"), Ok(None));
    let found = keeper.load(alloc, name)?;
    assert_eq!(rt; found.as_deref(), Some(b"new".as_slice()));
    fs::File::create(&rt, name)?.set_len(10_261_080)?;
    let front = keeper.load(alloc, name)?;
    assert_eq!(rt; front.map(|bytes| bytes.len()), Some(10_261_075));
    fs::remove_file(&rt, name)?;
    assert_eq!(rt; keeper.load(alloc, name), Ok(None));
    assert_eq!(rt; keeper.load(alloc, "."), Err(KeepFailure::Failed));
    assert_eq!(rt;
        keeper.save("no_such_folder/a.0", b"none"),
        Err(KeepFailure::Failed)
    );
    Ok(())
}

#[test]
fn a_file_that_cannot_be_opened_is_not_missing(rt: HostRuntime) -> Result<(), Fail> {
    let alloc = rt.alloc();
    let mut keeper = FileKeeper::new(Faulty {
        files: &rt,
        failing: Step::Open,
    });
    assert_eq!(rt; keeper.load(alloc, "any.0"), Err(KeepFailure::Failed));
    let mut keeper = FileKeeper::new(&rt);
    let name = "jn_host_loop.0";
    symlink(&rt, name, name)?;
    assert_eq!(rt; keeper.load(alloc, name), Err(KeepFailure::Failed));
    fs::remove_file(&rt, name)?;
    assert_eq!(rt; keeper.load(alloc, name), Ok(None));
    Ok(())
}

/// Whether a save over this file, which holds `old`, fails and leaves it as it was.
fn leaves_the_old<R: Files + AllocGlobal + Drop>(
    files: R,
    rt: &HostRuntime,
    name: &str,
) -> Result<bool, KeepFailure> {
    let failed = FileKeeper::new(files).save(name, b"new") == Err(KeepFailure::Failed);
    let held = FileKeeper::new(rt).load(rt.alloc(), name)?;
    Ok(failed && held.as_deref() == Some(b"old"))
}

#[test]
fn a_save_that_fails_leaves_the_old_file(rt: HostRuntime) -> Result<(), Fail> {
    let alloc = rt.alloc();
    let name = "jn_host_old.0";
    let beside = "jn_host_old.0.new";
    let mut keeper = FileKeeper::new(&rt);
    assert_eq!(rt; keeper.save(name, b"old"), Ok(()));
    for failing in [Step::Open, Step::Write, Step::Sync, Step::Rename] {
        let files = Faulty {
            files: &rt,
            failing,
        };
        assert!(rt; leaves_the_old(files, &rt, name)?);
        assert_eq!(rt; keeper.load(alloc, beside), Ok(None));
    }
    fs::create_dir(&rt, beside)?;
    assert!(rt; leaves_the_old(&rt, &rt, name)?);
    assert_eq!(rt; keeper.save(beside, b"new"), Err(KeepFailure::Failed));
    assert_eq!(rt; keeper.load(alloc, "jn_host_old.0.new.new"), Ok(None));
    fs::remove_dir(&rt, beside)?;
    fs::remove_file(&rt, name)?;
    Ok(())
}
