//! The history at the end of a replay is what a dump of the same file prints.
use crate::running::ran;
use cases::{CaseFile, read_cases};
use std::alloc::Global;
use std::test::Fail;
use zbase::{Bytes, FaultPlan, Memory, Text};
use zio::{MemoryFile, MemoryShelf, MemorySink, MemorySource};
use zope::Status;

/// Files that open, as those of a file of cases: with packed and undone transactions, chains of back pointers, two
/// records of an object in one transaction, and none. To each comes each torn rest.
const FILES: &str = "
piece hello
  hex 46533231 0331620000000000 00000000000000ac
piece hello_behind
  hex 0000 0000 0000 0000000000000000 0331620000000000 0000000000000000 0000000000000004 0000 0000000000000022
  hex 5a3146 0000 0000000000000000 0000 0000 0000 0000 0001 0001 61 0000000000000001
  hex 0000000000000001 0331620000000000 0000000000000000 0000000000000004 0000 000000000000001f
  hex 5a3144 0001 61 0000000000000000 0000 0000 0000 0000 00000005 68656c6c6f 00000000000000ac
piece written
  use hello
  hex 20
  use hello_behind
piece packed
  use hello
  hex 70
  use hello_behind
piece second
  hex 0331620000000001 000000000000004c 20 0001 0000 0002 ff fe00
  hex 0000000000000001 0331620000000001 0000000000000067 00000000000000b8 0000 0000000000000000
piece behind_second
  hex 000000000000004c
piece back
  use second
  hex 0000000000000067
  use behind_second
piece back_to_none
  use second
  hex 0000000000000000
  use behind_second
piece undone
  hex 0331620000000000 0000000000000019 75 0001 0000 0000 61 ff 0000000000000019
piece third
  hex 0331620000000002 00000000000000a7 70 0000 0000 0000
  hex 0000000000000001 0331620000000002 00000000000000d2 000000000000010c 0000 0000000000000000 00000000000000d2
  hex 0000000000000001 0331620000000002 00000000000000d2 000000000000010c 0000 0000000000000000 0000000000000000
  hex 0000000000000000 0331620000000002 000000000000001b 000000000000010c 0000 0000000000000002 6869
  hex 00000000000000a7
case files
file
  use written
file
  use written undone
file
  use written back
file
  use written back undone
file
  use written back_to_none
file
  use written back_to_none undone
file
  use written back third
file
  use packed
file
  use packed undone
file
  use packed back
file
  use packed back undone
file
  use packed back_to_none
file
  use packed back_to_none undone
file
  use packed back third
file
  | FS21\\
file
  | FS21\\
  use undone
case torn rests
file
file
  hex 0331620000000001 00000000000000ac 20 0000 0000 00
file
  hex 0331620000000009 00000000000000ac 63 0000 0000 0000
file
  hex 0000000000000000 0000000000000000 00 0000 0000 0000 ffff
file
  hex 0331620000000009 00000000000000ac 20 0000 0000 0000
";

/// A shelf with that file alone.
fn shelf_of(alloc: Global, file: &[u8]) -> Result<MemoryShelf, Memory> {
    let mut files = Vec::new(alloc);
    files.push(MemoryFile {
        name: Text::from_str(alloc, "a.fs")?,
        bytes: Bytes::from_slice(alloc, file)?,
        failing: None,
    })?;
    Ok(MemoryShelf::new(alloc, files, FaultPlan::none(alloc)))
}

/// The status and the output of a command over a file.
fn printed(
    alloc: Global,
    command: &str,
    file: &[u8],
    input: &str,
) -> Result<(Status, MemorySink), Memory> {
    let input = Bytes::from_slice(alloc, input.as_bytes())?;
    let mut source = MemorySource::new(input, FaultPlan::none(alloc));
    let mut shelf = shelf_of(alloc, file)?;
    ran(alloc, &[command, "a.fs"], &mut shelf, &mut source)
}

/// Whether a replay without steps over the file prints two lines and then what a dump of it prints.
fn is_replayed_as_dumped(alloc: Global, file: &[u8]) -> Result<bool, Memory> {
    let (dumped, history) = printed(alloc, "dump", file, "")?;
    let (replayed, report) = printed(alloc, "replay", file, "zope schedule 1\nend\n")?;
    let mut lines = report.bytes().splitn(3, |byte| *byte == b'\n').skip(2);
    let behind = lines.next();
    Ok(dumped == Status(0) && replayed == Status(0) && behind == Some(history.bytes()))
}

#[test]
fn a_file_is_replayed_as_it_is_dumped(rt: HostRuntime) -> Result<(), Fail> {
    let alloc = rt.alloc();
    let Ok(CaseFile { pieces: _, cases }) = read_cases(alloc, FILES, &[]) else {
        return Err("the files are cases".into());
    };
    let mut compared = 0u32;
    for whole in cases.iter().take(1).flat_map(|case| case.parts.iter()) {
        for torn in cases.iter().skip(1).flat_map(|case| case.parts.iter()) {
            let mut file = whole.bytes.copy()?;
            file.append(torn.bytes.as_slice())?;
            assert!(rt; is_replayed_as_dumped(alloc, file.as_slice())?);
            compared = compared.saturating_add(1);
        }
    }
    assert_eq!(rt; compared, 80);
    Ok(())
}
