ghost use Rattle.std.specs.Prelude.{◌≡◌, None};
ghost use Rattle.std.specs.declared.option.Option.{Option};
ghost use Rattle.zbase.specs.Limits.{greatest_number};

use crate::Disk;
use std::fs::OpenFile;
use std::io::{self, Read, Seek, SeekFrom, Write};
use zbase::{Failed, FaultCount, Memory};

/// A file of the system, which tells only its counts: nothing is assumed of what it holds.
///
/// A read past the end of the file is a fault, and so is a write to a file that was opened for reading alone.
/// Writes go to the system at once and take no memory of the program's.
#[derive(Drop)]
pub struct FileDisk<T> {
    file: T,
    /// Where the file stands, where that is known: reads one after another need no seek between them.
    place: Option<u64>,
    faults: FaultCount,
}

impl<T: Read + Write + Seek + OpenFile> FileDisk<T> {
    /// A disk over an open file, which has not failed so far.
    pub fn new(file: T) -> FileDisk<T>
        ensures count { (⟦<FileDisk<T> as Disk>⟧.counter result).count ≡ 0 }
        ensures calls { (⟦<FileDisk<T> as Disk>⟧.counter result).calls ≡ 0 }
    {
        FileDisk {
            file,
            place: None,
            faults: FaultCount::new(),
        }
    }
}

impl<T: Read + Write + Seek + OpenFile> Disk for FileDisk<T> {
    ghost told = { λ _. None };

    ghost counter = { λ disk. disk.faults };

    ghost spare_calls = { λ _. greatest_number };

    ghost spare_bytes = { λ _. greatest_number };

    fn reserve(&mut self, _calls: u64, _bytes: u64) -> Result<(), Memory> {
        Ok(())
    }

    fn len(&mut self) -> Result<u64, Failed> {
        let data = self.faults.call(self.file.metadata())?;
        Ok(data.len())
    }

    fn read_at(&mut self, at: u64, buf: &mut [u8]) -> Result<(), Failed> {
        let read = read_from(&mut self.file, &mut self.place, at, buf);
        self.faults.call(read)
    }

    fn write_at(&mut self, at: u64, bytes: &[u8]) -> Result<(), Failed> {
        self.place = None;
        self.faults.call(write_to(&mut self.file, at, bytes))
    }

    fn cut(&mut self, to: u64) -> Result<(), Failed> {
        self.place = None;
        self.faults.call(self.file.set_len(to))
    }

    fn sync(&mut self) -> Result<(), Failed> {
        // Not `sync_data`: the file's length must reach the device too.
        self.faults.call(self.file.sync_all())
    }
}

// Reads at a place, to which the file goes where it doesn't stand there.
fn read_from<T: Read + Seek>(
    file: &mut T,
    place: &mut Option<u64>,
    at: u64,
    buf: &mut [u8],
) -> io::Result<()> {
    if *place != Some(at) {
        file.seek(SeekFrom::Start(at))?;
    }
    *place = None;
    file.read_exact(buf)?;
    *place = at.checked_add(buf.len() as u64);
    Ok(())
}

fn write_to<T: Write + Seek>(file: &mut T, at: u64, bytes: &[u8]) -> io::Result<()> {
    file.seek(SeekFrom::Start(at))?;
    file.write_all(bytes)
}
