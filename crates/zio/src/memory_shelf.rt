ghost use Rattle.std.specs.Prelude.{◌≡◌, [], IfOk, IfSome, None, Some, filter, option_map};
ghost use Rattle.std.specs.Option.{option_copied};
ghost use Rattle.std.specs.declared.option.Option.{Option};
ghost use Rattle.zbase.specs.Faults.{IsFaultless};
ghost use Rattle.std.specs.List.{position};
ghost use Rattle.std.specs.Str.{bytes_eq};
ghost use Rattle.zdisk.specs.Disk.{content, synced};
ghost use Rattle.zio.specs.Shelves.{file_at, is_other};
ghost use Rattle.zio.specs.MemoryShelves.{HaveSoundDisks, NeverFails, entries, entry};

use crate::{Shelf, ShelfRefusal};
use std::alloc::Global;
use zbase::{Bytes, FaultPlan, Memory, Text};
use zdisk::{Disk, MemoryDisk};

/// A file in memory.
#[derive(Drop)]
pub struct MemoryFile {
    /// The name under which it is opened.
    pub name: Text,
    /// Its content, which is synced.
    pub bytes: Bytes,
    /// The number of a call that is to fail, of each disk that is opened over it, from 1 on; `None` where none is. A write or a
    /// cut that fails leaves the file as it was, and a sync what was last synced.
    pub failing: Option<u64>,
}

/// Files in memory, which it tells.
///
/// A disk that it hands out has a copy of the file's bytes, and what is written on it is the shelf's once the disk is closed.
/// Each call about a file that is there, or that isn't there yet and is to be made, counts as one of the plan; to close a
/// disk counts as none. A disk that a stop has hit has nothing to read: its file stays, as for want of memory.
#[derive(Drop)]
pub struct MemoryShelf {
    files: Vec<MemoryFile>,
    failing_new: Option<u64>,
    plan: FaultPlan,
    alloc: Global,
}

impl MemoryShelf {
    /// A shelf of these files, opening which fails as the plan says. Of two with one name the first is opened.
    pub fn new(alloc: Global, files: Vec<MemoryFile>, plan: FaultPlan) -> MemoryShelf
        ensures files { ⟦<MemoryShelf as Shelf>⟧.files result ≡ Some (entries files.items) }
        ensures counter { ⟦<MemoryShelf as Shelf>⟧.counter result ≡ plan }
        ensures sound_disks { HaveSoundDisks files.items → ⟦<MemoryShelf as Shelf>⟧.sound_disks result }
    {
        MemoryShelf {
            files,
            failing_new: None,
            plan,
            alloc,
        }
    }

    /// The files, as the shelf tells them.
    pub fn files(&self) -> &[MemoryFile]
        ensures { ⟦<MemoryShelf as Shelf>⟧.files self.now ≡ Some (entries result.now) }
    {
        self.files.as_slice()
    }

    /// The same shelf, on which each new file has a disk whose call with this number is to fail.
    pub fn with_failing_new(self, number: u64) -> MemoryShelf
        ensures files { ⟦<MemoryShelf as Shelf>⟧.files result ≡ ⟦<MemoryShelf as Shelf>⟧.files self }
        ensures counter { ⟦<MemoryShelf as Shelf>⟧.counter result ≡ ⟦<MemoryShelf as Shelf>⟧.counter self }
    {
        let MemoryShelf {
            files,
            failing_new: _,
            plan,
            alloc,
        } = self;
        MemoryShelf {
            files,
            failing_new: Some(number),
            plan,
            alloc,
        }
    }
}

impl Shelf for MemoryShelf {
    type D = MemoryDisk;

    ghost files = { λ shelf. Some (entries shelf.files.items) };

    ghost counter = { λ shelf. shelf.plan };

    ghost sound_disks = { λ shelf. HaveSoundDisks shelf.files.items × (shelf.failing_new ≡ None) };

    ghost lasts = { λ _ _. Unit {0} };

    fn open(&mut self, name: &str) -> Result<MemoryDisk, ShelfRefusal> {
        let Some(file) = find_file(&self.files, name) else {
            return Err(ShelfRefusal::Missing);
        };
        self.plan.call()?;
        Ok(disk_over(self.alloc, file)?)
    }

    fn create(&mut self, name: &str) -> Result<MemoryDisk, ShelfRefusal> {
        if find_file(&self.files, name).is_some() {
            return Err(ShelfRefusal::Exists);
        }
        self.plan.call()?;
        let file = new_file(self.alloc, name, self.failing_new)?;
        let disk = disk_over(self.alloc, &file)?;
        match self.files.push(file) {
            Ok(()) => Ok(disk),
            Err(_) => Err(ShelfRefusal::Memory),
        }
    }

    fn close(&mut self, name: &str, disk: MemoryDisk) -> Result<(), Memory> {
        let bytes = bytes_on(self.alloc, disk)?;
        if let Some(place) = place_of(&self.files, name) {
            self.files[place].bytes = bytes;
        }
        Ok(())
    }

    fn replace(&mut self, new: &str, main: &str) -> Result<(), ShelfRefusal> {
        let Some(file) = find_file(&self.files, new) else {
            return Err(ShelfRefusal::Missing);
        };
        let moved = copy_as(self.alloc, file, main)?;
        let mut files = copies_of_others(self.alloc, &self.files, new, main)?;
        self.plan.call()?;
        match files.push(moved) {
            Ok(()) => {
                self.files = files;
                Ok(())
            }
            Err(_) => Err(ShelfRefusal::Memory),
        }
    }
}

// An empty file of that name.
fn new_file(alloc: Global, name: &str, failing: Option<u64>) -> Result<MemoryFile, Memory>
    ensures entry { IfOk result (λ file. entry file ≡ (name.now, [])) }
    ensures failing { IfOk result (λ file. file.failing ≡ failing) }
{
    Ok(MemoryFile {
        name: Text::from_str(alloc, name)?,
        bytes: Bytes::new(alloc),
        failing,
    })
}

// A copy of a file under another name.
fn copy_as(alloc: Global, file: &MemoryFile, name: &str) -> Result<MemoryFile, Memory>
    ensures entry { IfOk result (λ copy. entry copy ≡ (name.now, file.now.bytes)) }
    ensures failing { IfOk result (λ copy. copy.failing ≡ file.now.failing) }
{
    Ok(MemoryFile {
        name: Text::from_str(alloc, name)?,
        bytes: file.bytes.copy()?,
        failing: file.failing,
    })
}

// Whether a file has neither of these names.
fn is_other(file: &MemoryFile, one: &str, two: &str) -> bool
    ensures { result ≡ is_other one.now two.now (entry file.now) }
{
    let name = file.name.as_str();
    name != one && name != two
}

// Copies of the files that have neither of these names.
fn copies_of_others(
    alloc: Global,
    files: &[MemoryFile],
    one: &str,
    two: &str,
) -> Result<Vec<MemoryFile>, Memory>
    ensures entries { IfOk result (λ others. entries others.items ≡ filter (is_other one.now two.now) (entries files.now)) }
    ensures sound { HaveSoundDisks files.now → IfOk result (λ others. HaveSoundDisks others.items) }
{
    let mut others = Vec::new(alloc);
    for file in files {
        if is_other(file, one, two) {
            others.push(copy_as(alloc, file, file.name.as_str())?)?;
        }
    }
    Ok(others)
}

/// The first file of that name.
fn find_file<'a>(files: &'a [MemoryFile], name: &str) -> Option<&'a MemoryFile>
    ensures bytes { option_map (λ file. file.bytes) (option_copied result) ≡ file_at (entries files.now) name.now }
    ensures sound { HaveSoundDisks files.now → IfSome result (λ file. NeverFails file.now) }
{
    for file in files {
        if file.name.as_str() == name {
            return Some(file);
        }
    }
    None
}

// The place of the first file of that name.
fn place_of(files: &[MemoryFile], name: &str) -> Option<usize>
    ensures { result ≡ position (λ file. bytes_eq file.name name.now) files.now }
{
    files.iter().position(|file| file.name.as_str() == name)
}

// What a disk reads, once nothing is armed on it.
fn bytes_on(alloc: Global, mut disk: MemoryDisk) -> Result<Bytes, Memory>
    ensures { IfOk result (λ bytes. IfSome (⟦<MemoryDisk as Disk>⟧.told disk) (λ told. bytes ≡ content told)) }
{
    disk.disarm();
    let len = disk.len().map_err(|_| Memory)?;
    let mut bytes = vec![in alloc; 0; len as usize]?;
    disk.read_at(0, &mut bytes).map_err(|_| Memory)?;
    Ok(Bytes::from_vec(bytes))
}

// A disk over a copy of a file.
fn disk_over(alloc: Global, file: &MemoryFile) -> Result<MemoryDisk, Memory>
    ensures told { IfOk result (λ disk. ⟦<MemoryDisk as Disk>⟧.told disk ≡ Some (synced file.now.bytes)) }
    ensures sound { NeverFails file.now → IfOk result (λ disk. IsFaultless (⟦<MemoryDisk as Disk>⟧.counter disk)) }
{
    let mut disk = MemoryDisk::new(alloc, file.bytes.copy()?);
    match file.failing {
        None | Some(0) => {}
        Some(number) => disk.arm_fail(number, 0)?,
    }
    Ok(disk)
}
