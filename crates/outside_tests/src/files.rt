//! Disks in memory and over a file of the system, and a folder of it.
use std::alloc::Global;
use std::fs::OpenOptions;
use std::path::PathBuf;
use std::rt::Env;
use std::test::Fail;
use std::{fs, process};
use zbase::{Bytes, Failed, FaultPlan, Memory, Text};
use zdisk::{Disk, FileDisk, MemoryDisk};
use zio::{Clock, Folder, MemoryFile, MemoryShelf, Shelf, ShelfRefusal, SystemClock};

/// Why a file wasn't as it should be.
#[derive(Debug, Drop, PartialEq, Eq)]
enum Unchanged {
    Memory,
    Failed,
    PastTheEnd,
}

impl From<Memory> for Unchanged {
    fn from(_: Memory) -> Unchanged {
        Unchanged::Memory
    }
}

impl From<Failed> for Unchanged {
    fn from(_: Failed) -> Unchanged {
        Unchanged::Failed
    }
}

/// A call that changes a file.
#[derive(Clone, Copy)]
enum Change<'a> {
    Write(u64, &'a [u8]),
    Cut(u64),
    Sync,
}

/// Makes the room for a change and calls it, where its place is within the file.
fn make_change<D: Disk>(disk: &mut D, change: Change) -> Result<(), Unchanged> {
    let len = disk.len()?;
    match change {
        Change::Write(at, bytes) if at <= len => {
            disk.reserve(1, bytes.len() as u64)?;
            disk.write_at(at, bytes)?;
        }
        Change::Cut(to) if to <= len => {
            disk.reserve(1, 0)?;
            disk.cut(to)?;
        }
        Change::Sync => {
            disk.reserve(1, 0)?;
            disk.sync()?;
        }
        _ => return Err(Unchanged::PastTheEnd),
    }
    Ok(())
}

/// Whether a file has these bytes, by one read of them all.
fn holds<D: Disk>(disk: &mut D, wanted: &[u8]) -> Result<bool, Failed> {
    let mut read = [0u8; 16];
    let len = disk.len()?;
    if len != wanted.len() as u64 || len > 16 {
        return Ok(false);
    }
    let buf = &mut read[..len as usize];
    disk.read_at(0, buf)?;
    Ok(&*buf == wanted)
}

/// Changes one after another of a file of the bytes 10, 20, 30 and 40, each with what the file then holds.
const CHANGES: [(Change, &[u8]); 10] = [
    (Change::Write(1, &[21, 31]), &[10, 21, 31, 40]),
    (Change::Write(3, &[41, 50, 60]), &[10, 21, 31, 41, 50, 60]),
    (Change::Write(6, &[70]), &[10, 21, 31, 41, 50, 60, 70]),
    (Change::Sync, &[10, 21, 31, 41, 50, 60, 70]),
    (Change::Cut(2), &[10, 21]),
    (Change::Write(2, &[32]), &[10, 21, 32]),
    (Change::Cut(3), &[10, 21, 32]),
    (Change::Write(3, &[]), &[10, 21, 32]),
    (Change::Cut(0), &[]),
    (Change::Write(0, &[11, 22]), &[11, 22]),
];

/// How many of the changes leave what they should.
fn changes_kept<D: Disk>(disk: &mut D) -> Result<usize, Unchanged> {
    let mut kept = 0usize;
    for (change, left) in CHANGES {
        make_change(disk, change)?;
        kept = kept.saturating_add(usize::from(holds(disk, left)?));
    }
    Ok(kept)
}

/// A path of this process's own, since other runs of the test may share the folder.
fn own_path(rt: &(impl AllocGlobal + Env), name: &str, number: u32) -> Result<PathBuf, Fail> {
    let file = format!(in rt.alloc(); "{name}-{number}")?;
    Ok(std::env::temp_dir(rt)?.join(rt.alloc(), file.as_str())?)
}

#[test]
fn a_disk_in_memory_keeps_its_changes(rt: HostRuntime) -> Result<(), Fail> {
    let bytes = Bytes::from_slice(rt.alloc(), &[10, 20, 30, 40])?;
    let mut disk = MemoryDisk::new(rt.alloc(), bytes);
    assert_eq!(rt; changes_kept(&mut disk), Ok(10));
    Ok(())
}

#[test]
fn a_file_of_the_system_keeps_its_changes(rt: HostRuntime) -> Result<(), Fail> {
    let path = own_path(&rt, "zdisk-file-disk", process::id(rt.process()))?;
    fs::write(&rt, path.as_path(), [10u8, 20, 30, 40].as_slice())?;
    let file = OpenOptions::new()
        .read(true)
        .write(true)
        .open(&rt, path.as_path())?;
    let mut disk = FileDisk::new(file);
    let mut past = [0u8; 2];
    let is_short = disk.read_at(3, &mut past) == Err(Failed);
    assert!(rt; is_short && changes_kept(&mut disk) == Ok(10));
    // One that was opened for reading alone refuses a write and stays.
    let mut reading = FileDisk::new(fs::open(&rt, path.as_path())?);
    let is_refused = reading.write_at(0, &[1]) == Err(Failed);
    assert!(rt; is_refused && holds(&mut reading, &[11, 22]) == Ok(true));
    fs::remove_file(&rt, path.as_path())?;
    Ok(())
}

/// The length of the file of that name.
fn length_of<F: Shelf>(shelf: &mut F, name: &str) -> Result<u64, ShelfRefusal> {
    let mut disk = shelf.open(name)?;
    let len = disk.len();
    shelf.close(name, disk)?;
    Ok(len?)
}

#[test]
fn a_folder_opens_a_file_of_the_system(rt: HostRuntime) -> Result<(), Fail> {
    let path = own_path(&rt, "zio-folder", process::id(rt.process()))?;
    let name = path.as_path().to_str().expect(&rt, "a path that is text");
    fs::write(&rt, path.as_path(), b"1234".as_slice())?;
    let mut folder = Folder::new(&rt);
    assert_eq!(rt; length_of(&mut folder, name), Ok(4));
    fs::remove_file(&rt, path.as_path())?;
    assert_eq!(rt; length_of(&mut folder, name), Err(ShelfRefusal::Missing));
    Ok(())
}

/// Calls about files one after another, each with what it answers, and the length of the file that it gives. There is a
/// file `a` of four bytes at first. A file that is made gets two bytes, and one that replaces another replaces `a`.
const CALLS: [(&str, &str, Result<u64, ShelfRefusal>); 11] = [
    ("create", "a", Err(ShelfRefusal::Exists)),
    ("open", "b", Err(ShelfRefusal::Missing)),
    ("replace", "b", Err(ShelfRefusal::Missing)),
    ("open", "a", Ok(4)),
    ("create", "b", Ok(2)),
    ("create", "b", Err(ShelfRefusal::Exists)),
    ("replace", "b", Ok(0)),
    ("open", "b", Err(ShelfRefusal::Missing)),
    ("create", "a", Err(ShelfRefusal::Exists)),
    ("create", "b", Ok(2)),
    ("replace", "b", Ok(0)),
];

/// How long a file is once this was changed on its disk, and the disk was given back.
fn changed<S: Shelf>(
    shelf: &mut S,
    name: &str,
    disk: S::D,
    change: Change,
) -> Result<u64, ShelfRefusal> {
    let mut disk = disk;
    let changed = make_change(&mut disk, change);
    shelf.close(name, disk)?;
    match changed {
        Ok(()) => length_of(shelf, name),
        Err(Unchanged::Memory) => Err(ShelfRefusal::Memory),
        Err(_) => Err(ShelfRefusal::Failed),
    }
}

/// What that call about a file comes to, where `main` is the file that is replaced.
fn called<S: Shelf>(
    shelf: &mut S,
    call: &str,
    name: &str,
    main: &str,
) -> Result<u64, ShelfRefusal> {
    if call == "replace" {
        shelf.replace(name, main)?;
        return Ok(0);
    }
    if call == "open" {
        return length_of(shelf, name);
    }
    let disk = shelf.create(name)?;
    changed(shelf, name, disk, Change::Write(0, b"12"))
}

/// How many of the calls answer what they should, where this stands before each name.
fn calls_answered<S: Shelf>(alloc: Global, shelf: &mut S, before: &str) -> Result<usize, Fail> {
    let main = format!(in alloc; "{before}a")?;
    let mut answered = 0usize;
    for (call, name, wanted) in CALLS {
        let name = format!(in alloc; "{before}{name}")?;
        let came = called(shelf, call, name.as_str(), main.as_str());
        answered = answered.saturating_add(usize::from(came == wanted));
    }
    Ok(answered)
}

#[test]
fn a_file_of_a_folder_is_changed_in_place(rt: HostRuntime) -> Result<(), Fail> {
    let path = own_path(&rt, "zio-changed", process::id(rt.process()))?;
    let name = path.as_path().to_str().expect(&rt, "a path that is text");
    fs::write(&rt, path.as_path(), b"1234".as_slice())?;
    let mut folder = Folder::new(&rt);
    for (change, length) in [(Change::Write(4, b"56"), 6), (Change::Cut(1), 1)] {
        let disk = match folder.open(name) {
            Ok(disk) => disk,
            Err(_) => break,
        };
        assert_eq!(rt; changed(&mut folder, name, disk, change), Ok(length));
    }
    assert_eq!(rt; length_of(&mut folder, name), Ok(1));
    fs::remove_file(&rt, path.as_path())?;
    Ok(())
}

#[test]
fn a_folder_makes_files_of_the_system_and_replaces_one(rt: HostRuntime) -> Result<(), Fail> {
    let path = own_path(&rt, "zio-calls", process::id(rt.process()))?;
    let before = path.as_path().to_str().expect(&rt, "a path that is text");
    let main = format!(in rt.alloc(); "{before}a")?;
    fs::write(&rt, main.as_str(), b"1234".as_slice())?;
    let mut folder = Folder::new(&rt);
    assert_eq!(rt; calls_answered(rt.alloc(), &mut folder, before)?, 11);
    assert_eq!(rt; length_of(&mut folder, main.as_str()), Ok(2));
    fs::remove_file(&rt, main.as_str())?;
    Ok(())
}

#[test]
fn a_shelf_in_memory_makes_and_replaces_files(rt: HostRuntime) -> Result<(), Fail> {
    let alloc = rt.alloc();
    let mut files = Vec::new(alloc);
    files.push(MemoryFile {
        name: Text::from_str(alloc, "a")?,
        bytes: Bytes::from_slice(alloc, b"1234")?,
        failing: None,
    })?;
    let mut shelf = MemoryShelf::new(alloc, files, FaultPlan::none(alloc));
    assert_eq!(rt; calls_answered(alloc, &mut shelf, "")?, 11);
    assert_eq!(rt; length_of(&mut shelf, "a"), Ok(2));
    Ok(())
}

#[test]
fn no_file_is_made_where_there_is_no_folder(rt: HostRuntime) -> Result<(), Fail> {
    let mut folder = Folder::new(&rt);
    for name in ["", "no such folder/a"] {
        assert_eq!(rt;
            called(&mut folder, "create", name, ""),
            Err(ShelfRefusal::Failed)
        );
    }
    Ok(())
}

#[test]
fn the_system_tells_the_time(rt: HostRuntime) {
    let mut clock = SystemClock::new(&rt);
    let told = clock.now();
    // later than 2020
    assert!(rt;
        told.map_or(
            false,
            |(seconds, nanos)| seconds > 1_577_836_800 && nanos < 1_000_000_000
        )
    );
}
