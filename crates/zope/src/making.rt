ghost use Rattle.std.specs.Prelude.{◌≡◌, ◌⊎◌, ◌<◌, ◌≤◌, ◌↔◌, IfErr, IfOk, IsErrOf, IsTrue, OnOk, string_bytes};
ghost use Rattle.zbase.specs.Faults.{Counts, Rose};
ghost use Rattle.std.specs.Io.KnownBytes.{append_known};
ghost use Rattle.new_site.specs.NewSite.{site_file};
ghost use Rattle.zope.specs.CheckCauses.{PrintCause};
ghost use Rattle.zope.specs.MakeCauses.{HasNew, IsFirst, IsFirstAt, IsLegible, LeavesNew, Made, MakeCause, NewCause, created_line};

use crate::last_lines::put_text;
use crate::refusal::Refusal;
use new_site::make_site;
use stamp::stamp;
use std::alloc::Global;
use zbase::{Memory, Text, Tid};
use zdisk::one_image;
use zio::{Clock, OutsideRefusal, Shelf, ShelfRefusal, Sink};
use zobject::limits::MOST_GIVEN_PASSWORD;
use zobject::{Rule, keeps};

// Whether a manager may have this name and password.
fn is_legible(name: &str, password: &str) -> bool
    ensures { IsTrue result ↔ IsLegible name.now password.now }
{
    keeps(Rule::UserName, name.as_bytes())
        && !password.is_empty()
        && password.len() <= MOST_GIVEN_PASSWORD
}

// The id of the transaction that makes a site at that moment: its stamp, and 1 where it has none, or the stamp 0.
fn tid_at(seconds: i64, nanos: u32) -> Tid
    requires { nanos < 1_000_000_000 }
    ensures { IsFirstAt (seconds, nanos) result }
{
    match stamp(seconds, nanos) {
        Ok(tid) => Tid(tid.0.max(1)),
        Err(_) => Tid(1),
    }
}

// The id of the transaction that makes a site now, and 1 where the clock failed.
fn first_tid<C: Clock>(clock: &mut C) -> Tid
    ensures { IsFirst (C.ticks clock.old) (C.counter clock.old) (C.counter clock.new) result }
{
    match clock.now() {
        Ok((seconds, nanos)) => tid_at(seconds, nanos),
        Err(_) => Tid(1),
    }
}

// Makes a new file of that name, with a new site. The disk is given back, whatever it holds.
fn make_file<F: Shelf>(
    alloc: Global,
    file: &str,
    tid: Tid,
    name: &str,
    password: &str,
    files: &mut F,
) -> Result<(), Refusal>
    requires legible { IsLegible name.now password.now }
    ensures made { OnOk result (HasNew (F.files files.old) file.now (site_file tid name.now password.now) (F.files files.new)) }
    ensures left { LeavesNew file.now name.now password.now (F.files files.old) (F.files files.new) }
    ensures cause { IfErr result (NewCause (F.files files.old) file.now (Rose (F.counter files.old) (F.counter files.new) ⊎ (F.sound_disks files.old → ⊥))) }
    ensures count { (F.counter files.old).count ≤ (F.counter files.new).count }
{
    one_image();
    match files.create(file) {
        Ok(mut disk) => {
            let made = make_site(alloc, &mut disk, tid, name, password);
            let closed = files.close(file, disk);
            made?;
            Ok(closed?)
        }
        Err(ShelfRefusal::Exists) => Err(Refusal::Exists),
        Err(ShelfRefusal::Failed) => Err(Refusal::Disk),
        Err(ShelfRefusal::Memory) => Err(Refusal::Memory),
        // A file that isn't there is what was asked for.
        Err(ShelfRefusal::Missing) => unreachable!(),
    }
}

// The line that says which id a new site's transaction has.
fn created_line(alloc: Global, tid: Tid) -> Result<String, Memory>
    ensures { IfOk result (λ line. string_bytes line ≡ created_line tid) }
{
    let mut digits = Text::new(alloc);
    digits.push_hex16(tid.0)?;
    Ok(format!(in alloc; "created {}\n", digits.as_str())?)
}

// Writes that line.
fn put_created<K: Sink>(alloc: Global, tid: Tid, out: &mut K) -> Result<(), Refusal>
    ensures ok { OnOk result (K.written out.new ≡ append_known (K.written out.old) (created_line tid)) }
    ensures cause { IfErr result (PrintCause (Rose (K.counter out.old) (K.counter out.new)) (created_line tid) (K.written out.old) (K.written out.new)) }
    ensures counts { Counts (K.counter out.old) (K.counter out.new) (IsErrOf result Refusal.Output) }
{
    match put_text(created_line(alloc, tid), out) {
        Ok(()) => Ok(()),
        Err(OutsideRefusal::Failed) => Err(Refusal::Output),
        Err(OutsideRefusal::Memory) => Err(Refusal::Memory),
    }
}

/// Makes a new site in a new file of that name, whose manager has this name and password, and prints the id of its
/// transaction.
pub fn make_new<F: Shelf, K: Sink, C: Clock>(
    alloc: Global,
    file: &str,
    name: &str,
    password: &str,
    files: &mut F,
    out: &mut K,
    clock: &mut C,
) -> Result<(), Refusal>
    ensures ok { OnOk result (Made file.now name.now password.now (F.files files.old) (F.files files.new) (C.ticks clock.old) (C.counter clock.old)
        (C.counter clock.new) (K.written out.old) (K.written out.new)) }
    ensures left { LeavesNew file.now name.now password.now (F.files files.old) (F.files files.new) }
    ensures cause { IfErr result (MakeCause file.now name.now password.now (F.files files.old) (Rose (K.counter out.old) (K.counter out.new))
        (Rose (F.counter files.old) (F.counter files.new) ⊎ (F.sound_disks files.old → ⊥)) (K.written out.old) (K.written out.new)) }
    ensures counts { Counts (K.counter out.old) (K.counter out.new) (IsErrOf result Refusal.Output) }
{
    if !is_legible(name, password) {
        return Err(Refusal::NotLegible);
    }
    let tid = first_tid(clock);
    make_file(alloc, file, tid, name, password, files)?;
    put_created(alloc, tid, out)
}
