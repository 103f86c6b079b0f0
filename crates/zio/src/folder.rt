ghost use Rattle.std.specs.Prelude.{◌≡◌, None};
ghost use Rattle.std.specs.declared.option.Option.{Option};

use crate::{Shelf, ShelfRefusal};
use std::fs::{self, OpenFile, OpenOptions};
use std::io::{self, ErrorKind};
use std::rt::Files;
use zbase::{FaultCount, Memory};
use zdisk::FileDisk;

/// The files of the system, by their paths. It tells only how often it has failed.
///
/// `Missing` is the answer where the system says that there is no such file, and `Exists` where it says that there is one
/// already; any other error is a fault. Behind a call that gave a file its name, the folder that has the name is synced too.
/// A file is opened for writing too, unless the system allows reading alone: then each write to its disk is a fault.
#[derive(Drop)]
pub struct Folder<R> {
    rt: R,
    faults: FaultCount,
}

impl<R: Files> Folder<R> {
    /// The files that this handle reaches; opening one has not failed so far.
    pub fn new(rt: R) -> Folder<R>
        ensures count { (⟦<Folder<R> as Shelf>⟧.counter result).count ≡ 0 }
    {
        Folder {
            rt,
            faults: FaultCount::new(),
        }
    }
}

impl<R: Files> Shelf for Folder<R> {
    type D = FileDisk<R::File>;

    ghost files = { λ _. None };

    ghost counter = { λ folder. folder.faults };

    ghost sound_disks = { λ _. ⊥ };

    ghost lasts = { λ _ _. Unit {0} };

    fn open(&mut self, name: &str) -> Result<FileDisk<R::File>, ShelfRefusal> {
        match open_file(&self.rt, name) {
            Ok(file) => Ok(FileDisk::new(file)),
            Err(error) if error.kind() == ErrorKind::NotFound => Err(ShelfRefusal::Missing),
            Err(_) => Err(self.faults.fault().into()),
        }
    }

    fn create(&mut self, name: &str) -> Result<FileDisk<R::File>, ShelfRefusal> {
        match create_synced(&self.rt, name) {
            Ok(file) => Ok(FileDisk::new(file)),
            Err(error) if error.kind() == ErrorKind::AlreadyExists => Err(ShelfRefusal::Exists),
            Err(_) => Err(self.faults.fault().into()),
        }
    }

    fn close(&mut self, _name: &str, _disk: FileDisk<R::File>) -> Result<(), Memory> {
        // What was written stands in the file.
        Ok(())
    }

    fn replace(&mut self, new: &str, main: &str) -> Result<(), ShelfRefusal> {
        match rename_synced(&self.rt, new, main) {
            Ok(()) => Ok(()),
            Err(error) if error.kind() == ErrorKind::NotFound => Err(ShelfRefusal::Missing),
            Err(_) => Err(self.faults.fault().into()),
        }
    }
}

// The path of the folder in which a file stands.
fn folder_of(path: &str) -> &str {
    match path.rsplit_once('/') {
        Some(("", _)) => "/",
        Some((folder, _)) => folder,
        None => ".",
    }
}

// Brings the names in the folder of a file to the device.
fn sync_folder<R: Files>(rt: &R, path: &str) -> io::Result<()> {
    fs::open(rt, folder_of(path))?.sync_all()
}

// The file of that name, for reading and writing; for reading alone where the system allows no more.
fn open_file<R: Files>(rt: &R, path: &str) -> io::Result<R::File> {
    match OpenOptions::new().read(true).write(true).open(rt, path) {
        Ok(file) => Ok(file),
        Err(_) => fs::open(rt, path),
    }
}

// A new file, under its name on the device.
fn create_synced<R: Files>(rt: &R, path: &str) -> io::Result<R::File> {
    let file = OpenOptions::new()
        .read(true)
        .write(true)
        .create_new(true)
        .open(rt, path)?;
    file.sync_all()?;
    sync_folder(rt, path)?;
    Ok(file)
}

// Gives a file another name, on the device too.
fn rename_synced<R: Files>(rt: &R, from: &str, to: &str) -> io::Result<()> {
    fs::rename(rt, from, to)?;
    sync_folder(rt, to)?;
    sync_folder(rt, from)
}
