//! A new site in a folder of the system.
use crate::running::ran;
use cases::{CaseFile, read_cases};
use std::alloc::Global;
use std::path::PathBuf;
use std::rt::{Env, Files};
use std::test::Fail;
use std::{fs, process};
use zbase::{Bytes, FaultPlan, Memory};
use zio::{Folder, MemorySink, MemorySource};
use zope::Status;

/// The file of a new site, made as the year 2000 began for the manager `admin` with the password `secret`: by the formats, a
/// transaction of three records of the second version.
const SITE: &str = "
piece site
  hex 465332310331620000000000000000000000019320000000040000696e6974
  hex 0000000000000000033162000000000000000000000000000000000000000004000000000000000000425a32460000000000
  hex 000000000000045a6f70650000000000000002000961636c5f75736572730000000000000001000a696e6465785f68746d6c
  hex 0000000000000002
  hex 0000000000000001033162000000000000000000000000000000000000000004000000000000000000555a3255000961636c
  hex 5f7573657273000000000000000000000000000000000001000561646d696e00217b5348417d35656e3647364d657a52726f
  hex 5433584b716b64504f6d592f4266513d000100074d616e61676572
  hex 0000000000000002033162000000000000000000000000000000000000000004000000000000000000635a324d000a696e64
  hex 65785f68746d6c000000000000000000000000000000000000003e3c68746d6c3e3c626f64793e3c68313e3c64746d6c2d76
  hex 6172207469746c652068746d6c5f71756f74653e3c2f68313e3c2f626f64793e3c2f68746d6c3e0000
  hex 0000000000000193
case site
file
  use site
";

/// The commands about a file of that path, one after another, each with its status and what it prints.
const COMMANDS: [(&str, u8, &str); 4] = [
    ("check", 8, "missing"),
    ("init", 0, "created 0331620000000000"),
    ("init", 11, "exists"),
    (
        "check",
        0,
        "transactions 1\nobjects 3\nlast 0331620000000000\nend 415\ntorn 0",
    ),
];

/// The status and the output of a command about the file of that path.
fn printed(
    alloc: Global,
    rt: &impl Files,
    command: &str,
    path: &str,
) -> Result<(Status, MemorySink), Memory> {
    let mut files = Folder::new(rt);
    let mut source = MemorySource::new(Bytes::new(alloc), FaultPlan::none(alloc));
    let words = [command, path, "admin", "secret"];
    let count = if command == "init" { 4 } else { 2 };
    ran(alloc, &words[..count], &mut files, &mut source)
}

/// Whether a command about the file of that path ends with this status, and prints what it should: the words, with the path
/// behind them where it doesn't end well.
fn ends(
    alloc: Global,
    rt: &impl Files,
    command: &str,
    path: &str,
    status: u8,
    wanted: &str,
) -> Result<bool, Memory> {
    let (ended, sink) = printed(alloc, rt, command, path)?;
    let line = if status == 0 {
        format!(in alloc; "{wanted}\n")?
    } else {
        format!(in alloc; "{wanted} {path}\n")?
    };
    Ok(ended == Status(status) && sink.bytes() == line.as_bytes())
}

/// A path of this process's own.
fn own_path(rt: &(impl AllocGlobal + Env), number: u32) -> Result<PathBuf, Fail> {
    let file = format!(in rt.alloc(); "zope-site-{number}")?;
    Ok(std::env::temp_dir(rt)?.join(rt.alloc(), file.as_str())?)
}

#[test]
fn a_new_site_is_its_file_and_stays(rt: HostRuntime) -> Result<(), Fail> {
    let alloc = rt.alloc();
    let path = own_path(&rt, process::id(rt.process()))?;
    let path = path.as_path().to_str().expect(&rt, "a path that is text");
    for (command, status, wanted) in COMMANDS {
        assert!(rt;
            ends(alloc, &rt, command, path, status, wanted)?,
            "{command}"
        );
    }
    let Ok(CaseFile { pieces: _, cases }) = read_cases(alloc, SITE, &[]) else {
        return Err("the file is a case".into());
    };
    let bytes = fs::read(&rt, path)?;
    fs::remove_file(&rt, path)?;
    for part in cases.iter().flat_map(|case| case.parts.iter()) {
        assert!(rt; part.bytes.as_slice() == bytes.as_slice() && bytes.len() == 415);
    }
    Ok(())
}
