//! Commands over an input that never ends, and over files that are longer than any machine could hold.
ghost use Rattle.std.specs.Prelude.{None};
ghost use Rattle.zbase.specs.Limits.{greatest_number};

use crate::running::ran;
use std::alloc::Global;
use std::test::Fail;
use zbase::{Bytes, Failed, FaultCount, FaultPlan, Memory};
use zdisk::Disk;
use zio::{MemorySource, Shelf, ShelfRefusal, Source};
use zope::Status;

/// A source that never ends.
#[derive(Drop)]
struct Endless {
    faults: FaultCount,
}

impl Source for Endless {
    ghost left = { λ _. None };

    ghost counter = { λ source. source.faults };

    fn read(&mut self, buf: &mut [u8]) -> Result<usize, Failed> {
        Ok(buf.len())
    }
}

/// A file of so many bytes. It keeps nothing of what is written.
#[derive(Drop)]
struct LongDisk {
    length: u64,
    faults: FaultCount,
}

impl Disk for LongDisk {
    ghost told = { λ _. None };

    ghost counter = { λ disk. disk.faults };

    ghost spare_calls = { λ _. greatest_number };

    ghost spare_bytes = { λ _. greatest_number };

    fn reserve(&mut self, _calls: u64, _bytes: u64) -> Result<(), Memory> {
        Ok(())
    }

    fn len(&mut self) -> Result<u64, Failed> {
        self.faults.call(Ok::<u64, Failed>(self.length))
    }

    fn read_at(&mut self, _at: u64, _buf: &mut [u8]) -> Result<(), Failed> {
        self.faults.call(Ok::<(), Failed>(()))
    }

    fn write_at(&mut self, _at: u64, _bytes: &[u8]) -> Result<(), Failed> {
        self.faults.call(Ok::<(), Failed>(()))
    }

    fn cut(&mut self, _to: u64) -> Result<(), Failed> {
        self.faults.call(Ok::<(), Failed>(()))
    }

    fn sync(&mut self) -> Result<(), Failed> {
        self.faults.call(Ok::<(), Failed>(()))
    }
}

/// A shelf that has that file under every name.
#[derive(Drop)]
struct LongShelf {
    length: u64,
    faults: FaultCount,
}

impl Shelf for LongShelf {
    type D = LongDisk;

    ghost files = { λ _. None };

    ghost counter = { λ shelf. shelf.faults };

    ghost sound_disks = { λ _. ⊥ };

    ghost lasts = { λ _ _. Unit {0} };

    fn open(&mut self, _name: &str) -> Result<LongDisk, ShelfRefusal> {
        Ok(LongDisk {
            length: self.length,
            faults: FaultCount::new(),
        })
    }

    fn create(&mut self, _name: &str) -> Result<LongDisk, ShelfRefusal> {
        Err(ShelfRefusal::Exists)
    }

    fn close(&mut self, _name: &str, _disk: LongDisk) -> Result<(), Memory> {
        Ok(())
    }

    fn replace(&mut self, _new: &str, _main: &str) -> Result<(), ShelfRefusal> {
        Err(self.faults.fault().into())
    }
}

/// Whether a command over a file of that length ends with this status and this output.
fn ends_long<S: Source>(
    alloc: Global,
    command: &str,
    length: u64,
    input: &mut S,
    status: u8,
    output: &str,
) -> Result<bool, Memory> {
    let mut files = LongShelf {
        length,
        faults: FaultCount::new(),
    };
    let (ended, sink) = ran(alloc, &[command, "long.fs"], &mut files, input)?;
    Ok(ended == Status(status) && sink.bytes() == output.as_bytes())
}

#[test]
fn an_input_without_end_is_too_large(rt: HostRuntime) -> Result<(), Fail> {
    let mut input = Endless {
        faults: FaultCount::new(),
    };
    let said = "too large 67108864\n";
    assert!(rt; ends_long(rt.alloc(), "replay", 268_435_457, &mut input, 9, said)?);
    Ok(())
}

#[test]
fn files_that_are_too_long_are_refused_by_their_length(rt: HostRuntime) -> Result<(), Fail> {
    let alloc = rt.alloc();
    for (command, length, status, output) in [
        ("replay", 268_435_457, 9, "too large 268435457\n"),
        (
            "dump",
            281_474_976_710_656,
            12,
            "too long 281474976710656\n",
        ),
        ("dump", u64::MAX, 12, "too long 18446744073709551615\n"),
        (
            "check",
            281_474_976_710_656,
            12,
            "too long 281474976710656\n",
        ),
        ("check", u64::MAX, 12, "too long 18446744073709551615\n"),
        // no machine has the memory for the bytes of the longest file, of which a check reads the front
        ("check", 281_474_976_710_655, 3, "damaged 9 at 0\n"),
    ] {
        let text = Bytes::from_slice(alloc, b"zope schedule 1\nend\n")?;
        let mut input = MemorySource::new(text, FaultPlan::none(alloc));
        assert!(rt;
            ends_long(alloc, command, length, &mut input, status, output)?,
            "{command} {length}"
        );
    }
    Ok(())
}
