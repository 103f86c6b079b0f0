use crate::{Case, CaseFile, CasesRefusal, Count, Part, compare, read_cases};
use std::alloc::Global;
use std::process::ExitCode;
use std::rt::{Env, Files};
use std::{env, fs, io};
use zbase::Text;

/// How the cases of a layer are run.
pub trait Runner {
    /// Whether a part of this key is given to the driver. Every other part is what has to come of the case.
    fn knows(&self, key: &str) -> bool;

    /// Runs a case over objects in memory: the parts that come of it, as `status 0` and `output` with its bytes.
    fn run(&self, alloc: Global, case: &Case) -> Result<Vec<Part>, CasesRefusal>;
}

// Why a case was not run, in a line.
fn tell_refusal(alloc: Global, refusal: CasesRefusal) -> Result<String, CasesRefusal> {
    let said = match refusal {
        CasesRefusal::BadLine(line) => format!(in alloc;
            "  not run: line {line} is none of the format's\n"
        )?,
        CasesRefusal::BadPart(line) => format!(in alloc;
            "  not run: the part of line {line} can't be read\n"
        )?,
        CasesRefusal::Missing => String::from_str(alloc, "  not run: a part is missing\n")?,
        CasesRefusal::Memory => String::from_str(alloc, "  not run: want of memory\n")?,
    };
    Ok(said)
}

// What is to be said of a case: nothing where all is as it should be.
fn judged<R: Runner>(alloc: Global, runner: &R, case: &Case) -> Result<Text, CasesRefusal> {
    match runner.run(alloc, case) {
        Ok(came) => compare(alloc, runner, case, came.as_slice()),
        Err(refusal) => {
            let said = tell_refusal(alloc, refusal)?;
            Ok(Text::from_str(alloc, said.as_str())?)
        }
    }
}

// Runs a case of the file of that name, adds what is to be said of it, and tells whether it is wrong.
fn run_case<R: Runner>(
    alloc: Global,
    out: &mut Text,
    runner: &R,
    name: &str,
    case: &Case,
) -> Result<bool, CasesRefusal> {
    let said = judged(alloc, runner, case)?;
    if said.is_empty() {
        return Ok(false);
    }
    let line = case.line;
    let title = case.title.as_str();
    let head = format!(in alloc; "{name} line {line}: {title}\n")?;
    out.push_str(head.as_str())?;
    out.push_str(said.as_str())?;
    out.push_str("\n")?;
    Ok(true)
}

/// What was met in the files so far.
#[derive(Drop)]
pub struct Met {
    /// The pieces of files without cases, which every later file may name.
    pub pieces: Vec<Part>,
    /// The cases.
    pub count: Count,
}

impl Met {
    /// Nothing.
    pub fn new(alloc: Global) -> Met {
        Met {
            pieces: Vec::new(alloc),
            count: Count::new(),
        }
    }
}

// Runs these cases of the file of that name: what is to be said of them.
fn run_cases<R: Runner>(
    alloc: Global,
    runner: &R,
    name: &str,
    file: CaseFile,
    met: &mut Met,
) -> Result<Text, CasesRefusal> {
    let CaseFile { pieces, cases } = file;
    let mut out = Text::new(alloc);
    for case in &cases {
        let is_wrong = run_case(alloc, &mut out, runner, name, case)?;
        met.count = met.count.with(is_wrong);
    }
    if cases.is_empty() {
        for piece in pieces {
            met.pieces.push(piece)?;
        }
    }
    Ok(out)
}

/// Runs the cases of a text, which is that of the file of this name: what is to be said of them. A text that isn't one
/// of cases counts as a case that is wrong.
pub fn run_text<R: Runner>(
    alloc: Global,
    runner: &R,
    name: &str,
    text: &str,
    met: &mut Met,
) -> Result<Text, CasesRefusal> {
    match read_cases(alloc, text, met.pieces.as_slice()) {
        Ok(file) => run_cases(alloc, runner, name, file, met),
        Err(CasesRefusal::BadLine(line)) => {
            met.count = met.count.with(true);
            let said = format!(in alloc; "{name} line {line}: none of the format's\n")?;
            Ok(Text::from_str(alloc, said.as_str())?)
        }
        Err(refusal) => Err(refusal),
    }
}

// Runs the cases of the file of that name, and prints what is wrong.
fn run_file<R: Runner>(
    rt: &(impl AllocGlobal + Files + Print),
    runner: &R,
    name: &str,
    met: &mut Met,
) -> io::Result<()> {
    let text = fs::read_to_string(rt, name)?;
    match run_text(rt.alloc(), runner, name, text.as_str(), met) {
        Ok(said) => {
            let said = said.as_str();
            print!(rt; "{said}")?;
        }
        Err(_) => {
            met.count = met.count.with(true);
            println!(rt; "{name}: no memory")?;
        }
    }
    Ok(())
}

/// All that a driver does: runs the cases of the files that the program's words name, prints what is wrong, and then the
/// one line `N cases, M wrong`. The status is 1 where a case is wrong, and 0 where none is.
pub fn run_files<R: Runner>(
    rt: &(impl AllocGlobal + Env + Files + Print),
    runner: &R,
) -> io::Result<ExitCode> {
    let mut met = Met::new(rt.alloc());
    for name in env::args(rt)?.skip(1) {
        run_file(rt, runner, name.as_str(), &mut met)?;
    }
    let Count { all, wrong } = met.count;
    println!(rt; "{all} cases, {wrong} wrong")?;
    Ok(ExitCode::from(u8::from(wrong > 0)))
}
