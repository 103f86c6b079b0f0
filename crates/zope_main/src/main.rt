//! The program: its words, the folder that it runs in, its input, its output and the machine's sockets, handed to `run`.
#![tactic(auto)]

use net_hub::NetHub;
use std::env;
use std::io::ErrorKind;
use std::process::ExitCode;
use zio::{Folder, OutsideRefusal, ReaderSource, Sink, SystemClock, WriterSink};
use zope::{Status, run};

// The words of the command line. Words that aren't UTF-8 are none of the program's.
fn words_of(
    rt: &impl AllocGlobal,
    args: std::io::Result<env::Args>,
) -> std::io::Result<Vec<String>> {
    let mut words = Vec::new(rt.alloc());
    match args {
        Ok(args) => {
            for word in args.skip(1) {
                words.push(word)?;
            }
        }
        Err(error) => {
            if error.kind() != ErrorKind::InvalidData {
                return Err(error);
            }
        }
    }
    Ok(words)
}

// Says that there was no memory for the words, as `run` says it of what comes behind them.
fn starve(out: &mut impl Sink) -> Status {
    match out.write_all(b"out of memory\n") {
        Ok(()) => Status(7),
        Err(OutsideRefusal::Failed) => Status(6),
        Err(OutsideRefusal::Memory) => Status(7),
    }
}

fn main(rt: HostRuntime) -> std::io::Result<ExitCode> {
    let alloc = rt.alloc();
    let mut files = Folder::new(&rt);
    let mut input = ReaderSource::new(rt.stdin());
    let mut out = WriterSink::new(rt.stdout());
    let mut hub = NetHub::new(alloc, &rt);
    let mut clock = SystemClock::new(&rt);
    let status = match words_of(&rt, env::args(&rt)) {
        Ok(words) => run(
            alloc,
            words.as_slice(),
            &mut files,
            &mut input,
            &mut out,
            &mut hub,
            &mut clock,
        ),
        Err(_) => starve(&mut out),
    };
    hub.finish();
    Ok(ExitCode::from(status.0))
}
