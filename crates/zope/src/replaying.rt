ghost use Rattle.std.specs.Prelude.{◌≡◌, ◌⊎◌, ◌≤◌, IfErr, IfOk, OnOk, IsErrOf, length};
ghost use Rattle.zbase.specs.Faults.{Counts, Rose};
ghost use Rattle.fs_store.specs.Stores.{most_length};
ghost use Rattle.zope.specs.ReplayCauses.{Broke, BrokeAlone, FileCause, InputCause, ReplayCause, RunCause};
ghost use Rattle.zope.specs.Given.{Scheduled, Stored, most_file};
ghost use Rattle.zope.specs.Replayed.{Explains, ExplainsAlone, RanAlone, Replayed};

use crate::inputs::{read_file, read_input};
use crate::refusal::Refusal;
use publisher::Site;
use replay::{replay, serial};
use schedule::{Schedule, read_schedule};
use site_links::SiteLinks;
use std::alloc::Global;
use zbase::Bytes;
use zio::{Shelf, Sink, Source};

// The schedule that all of the input spells.
fn schedule_of<S: Source>(alloc: Global, input: &mut S) -> Result<Schedule, Refusal>
    ensures scheduled { IfOk result (Scheduled (S.left input.old)) }
    ensures cause { IfErr result (InputCause (S.left input.old) (Rose (S.counter input.old) (S.counter input.new))) }
    ensures counts { Counts (S.counter input.old) (S.counter input.new) (IsErrOf result Refusal.Input) }
{
    let text = read_input(alloc, input)?;
    Ok(read_schedule(alloc, text.as_slice())?)
}

// The bytes of the file of that name.
fn bytes_of<F: Shelf>(alloc: Global, files: &mut F, name: &str) -> Result<Bytes, Refusal>
    ensures stored { IfOk result (Stored (F.files files.old) name.now) }
    ensures cause { IfErr result (FileCause (F.files files.old) name.now (Rose (F.counter files.old) (F.counter files.new) ⊎ (F.sound_disks files.old → ⊥))) }
    ensures same { F.files files.new ≡ F.files files.old }
    ensures count { (F.counter files.old).count ≤ (F.counter files.new).count }
{
    let bytes = read_file(alloc, files, name)?;
    Ok(Bytes::from_vec(bytes))
}

// Runs the schedule over the bytes of a file.
fn run_over<K: Sink>(
    alloc: Global,
    bytes: Bytes,
    limit: u64,
    schedule: &Schedule,
    out: &mut K,
) -> Result<(), Refusal>
    requires limit { limit ≤ most_length }
    requires size { length bytes ≤ most_file }
    ensures printed { OnOk result (Explains limit bytes schedule.now (K.written out.old) (K.written out.new)) }
    ensures cause { IfErr result (RunCause Broke limit bytes schedule.now (Rose (K.counter out.old) (K.counter out.new)) (K.written out.old) (K.written out.new)) }
    ensures counts { Counts (K.counter out.old) (K.counter out.new) (IsErrOf result Refusal.Output) }
{
    let links = SiteLinks::new(alloc);
    let _disk = replay(alloc, bytes, limit, schedule, Site::new(alloc), &links, out)?;
    Ok(())
}

// Runs the requests of the schedule one after another over the bytes of a file.
fn run_alone<K: Sink>(
    alloc: Global,
    bytes: Bytes,
    limit: u64,
    schedule: &Schedule,
    out: &mut K,
) -> Result<(), Refusal>
    requires limit { limit ≤ most_length }
    requires size { length bytes ≤ most_file }
    ensures printed { OnOk result (ExplainsAlone limit bytes schedule.now (K.written out.old) (K.written out.new)) }
    ensures cause { IfErr result (RunCause BrokeAlone limit bytes schedule.now (Rose (K.counter out.old) (K.counter out.new))
        (K.written out.old) (K.written out.new)) }
    ensures counts { Counts (K.counter out.old) (K.counter out.new) (IsErrOf result Refusal.Output) }
{
    let links = SiteLinks::new(alloc);
    let _disk = serial(alloc, bytes, limit, schedule, Site::new(alloc), &links, out)?;
    Ok(())
}

/// Replays all of the input over the file of that name, which may have so many bytes: reads the input, its grammar and
/// the file, in this order, and then runs the schedule. It changes no file.
pub fn replay_file<F: Shelf, S: Source, K: Sink>(
    alloc: Global,
    name: &str,
    limit: u64,
    files: &mut F,
    input: &mut S,
    out: &mut K,
) -> Result<(), Refusal>
    requires limit { limit ≤ most_length }
    ensures same { F.files files.new ≡ F.files files.old }
    ensures ok { OnOk result (Replayed name.now limit (F.files files.old) (S.left input.old) (K.written out.old) (K.written out.new)) }
    ensures cause { IfErr result (ReplayCause Broke name.now limit (F.files files.old) (S.left input.old) (Rose (S.counter input.old) (S.counter input.new))
        (Rose (K.counter out.old) (K.counter out.new)) (Rose (F.counter files.old) (F.counter files.new) ⊎ (F.sound_disks files.old → ⊥))
        (K.written out.old) (K.written out.new)) }
    ensures counts { Counts (K.counter out.old) (K.counter out.new) (IsErrOf result Refusal.Output) }
{
    let schedule = schedule_of(alloc, input)?;
    let bytes = bytes_of(alloc, files, name)?;
    run_over(alloc, bytes, limit, &schedule, out)
}

/// Runs each request of the input alone over the file of that name, one after another, and reads as a replay does. It changes no file.
pub fn serial_file<F: Shelf, S: Source, K: Sink>(
    alloc: Global,
    name: &str,
    limit: u64,
    files: &mut F,
    input: &mut S,
    out: &mut K,
) -> Result<(), Refusal>
    requires limit { limit ≤ most_length }
    ensures same { F.files files.new ≡ F.files files.old }
    ensures ok { OnOk result (RanAlone name.now limit (F.files files.old) (S.left input.old) (K.written out.old) (K.written out.new)) }
    ensures cause { IfErr result (ReplayCause BrokeAlone name.now limit (F.files files.old) (S.left input.old)
        (Rose (S.counter input.old) (S.counter input.new)) (Rose (K.counter out.old) (K.counter out.new))
        (Rose (F.counter files.old) (F.counter files.new) ⊎ (F.sound_disks files.old → ⊥)) (K.written out.old) (K.written out.new)) }
    ensures counts { Counts (K.counter out.old) (K.counter out.new) (IsErrOf result Refusal.Output) }
{
    let schedule = schedule_of(alloc, input)?;
    let file = bytes_of(alloc, files, name)?;
    run_alone(alloc, file, limit, &schedule, out)
}
