ghost use Rattle.std.specs.Prelude.{◌≡◌, ◌<◌, ◌≤◌, ◌⊎◌, map, string_bytes};
ghost use Rattle.std.specs.Io.KnownBytes.{append_known};
ghost use Rattle.zbase.specs.Faults.{Rose};
ghost use Rattle.zope.specs.Causes.{LeavesFiles, NoCause, last_line};
ghost use Rattle.zope.specs.Ends.{Ends, status_of};
ghost use Rattle.zope.specs.Outside.{outside};
ghost use Rattle.zope.specs.Words.{IsInit, IsReplay, IsSerial, IsServe};

use crate::command::{names_of, run_command};
use crate::last_lines::put_last_line;
use crate::refusal::Refusal;
use fs_record::one_opening;
use repozo::{one_bad_line as one_bad_row, one_index};
use schedule::{one_bad_line, one_schedule};
use std::alloc::Global;
use words::{WordsRefusal, read_words};
use zio::{Clock, Hub, OutsideRefusal, Shelf, Sink, Source};

/// How a run ended: 0 well, any other number for a cause.
#[derive(Clone, Copy, Debug, PartialEq, Eq)]
pub struct Status(pub u8);

// The status of a refusal.
fn status_of(refusal: &Refusal) -> Status
    ensures { result.0 ≡ status_of refusal.now }
{
    match refusal {
        Refusal::Usage => Status(2),
        Refusal::NotLegible => Status(10),
        Refusal::Damaged(_, _) => Status(3),
        Refusal::BadLine(_) => Status(4),
        Refusal::Disk => Status(5),
        Refusal::Input => Status(6),
        Refusal::Output => Status(6),
        Refusal::Memory => Status(7),
        Refusal::Missing => Status(8),
        Refusal::Exists => Status(11),
        Refusal::InputTooLarge => Status(9),
        Refusal::FileTooLarge(_) => Status(9),
        Refusal::TooLong(_) => Status(12),
        Refusal::Unreadable(_) => Status(13),
        Refusal::PackExists => Status(11),
        Refusal::Full { .. } => Status(14),
        Refusal::MissingIndex => Status(8),
        Refusal::BadIndex(_) => Status(15),
        Refusal::BadPiece(_) => Status(16),
        Refusal::NamesSpent => Status(17),
    }
}

// The status of a refusal of a command over the file or repository of that name. The last line names the refusal, but for one of the sink
// itself. Where the sink fails in this, that is the status; where memory is wanting, that.
fn refuse<K: Sink>(alloc: Global, refusal: Refusal, name: &str, out: &mut K) -> Status
    ensures sink { refusal ≡ Refusal.Output → result.0 ≡ 6 }
    ensures named { (refusal ≡ Refusal.Output → ⊥)
        → ((result.0 ≡ status_of refusal) × (K.written out.new ≡ append_known (K.written out.old) (last_line name.now refusal)))
        ⊎ ((result.0 ≡ 6) × Rose (K.counter out.old) (K.counter out.new)) ⊎ (result.0 ≡ 7) }
    ensures sink_failed { (K.counter out.old).count < (K.counter out.new).count → result.0 ≡ 6 }
    ensures count { (K.counter out.old).count ≤ (K.counter out.new).count }
{
    if let Refusal::Output = refusal {
        return Status(6);
    }
    let status = status_of(&refusal);
    match put_last_line(alloc, refusal, name, out) {
        Ok(()) => status,
        Err(OutsideRefusal::Failed) => Status(6),
        Err(OutsideRefusal::Memory) => Status(7),
    }
}

/// The program: a command in words, over a shelf of files, an input, an output, a hub of connections and a
/// clock.
///
/// Every line goes to the output. The status is 0 where the command ended well; any other one is a cause, which
/// the last line names.
pub fn run<F: Shelf, S: Source, K: Sink, H: Hub, C: Clock>(
    alloc: Global,
    words: &[String],
    files: &mut F,
    input: &mut S,
    out: &mut K,
    hub: &mut H,
    clock: &mut C,
) -> Status
where
    F::D: Drop,
    // With 0 the words' command did what it says: a replay wrote a report that explains the schedule, or that of its requests one after
    // another, a server gave each connection
    // the reply of the report that its tape's items have, a check wrote the file's numbers, a dump its history, a new site its file,
    // a backup put what is due of the file into its repository, a restore made the file again, and a pack left of the file what is needed.
    // Each other status is that of a refusal with its cause, which the last line names.
    ensures ends { let old = outside (F.files files.old) (F.sound_disks files.old) (F.lasts files.old) (F.counter files.old)
        (S.left input.old) (S.counter input.old) (K.written out.old) (K.counter out.old)
        (H.peers hub.old) (H.listening hub.old) (C.ticks clock.old) (C.counter clock.old) in
        let new = outside (F.files files.new) (F.sound_disks files.new) (F.lasts files.new) (F.counter files.new)
        (S.left input.new) (S.counter input.new) (K.written out.new) (K.counter out.new)
        (H.peers hub.new) (H.listening hub.new) (C.ticks clock.new) (C.counter clock.new) in
        Ends (map string_bytes words.now) old new result.0 }
    // 6 comes whenever the sink failed, also in a last line.
    ensures sink_failed { (K.counter out.old).count < (K.counter out.new).count → result.0 ≡ 6 }
    // Where there is no cause, the run ends well, or for want of memory.
    ensures complete { let old = outside (F.files files.old) (F.sound_disks files.old) (F.lasts files.old) (F.counter files.old)
        (S.left input.old) (S.counter input.old) (K.written out.old) (K.counter out.old)
        (H.peers hub.old) (H.listening hub.old) (C.ticks clock.old) (C.counter clock.old) in
        let new = outside (F.files files.new) (F.sound_disks files.new) (F.lasts files.new) (F.counter files.new)
        (S.left input.new) (S.counter input.new) (K.written out.new) (K.counter out.new)
        (H.peers hub.new) (H.listening hub.new) (C.ticks clock.new) (C.counter clock.new) in
        NoCause (map string_bytes words.now) old new → (result.0 ≡ 0) ⊎ (result.0 ≡ 7) }
    // Whatever the status, each file that was there stays as it was, but for the site that is served and for an index that a whole new
    // one replaces, and the only new ones are that of a new site, or what there is of it where its making broke off, a server's record, a
    // backup's piece and index, the file that is restored, and a part of a packed file whose pack broke off; a pack that ends well puts the
    // packed file in the place of the old one.
    ensures files { LeavesFiles (map string_bytes words.now) (F.files files.old) (F.files files.new) }
    // Only a server asks the hub, only a replay, of all items or of requests alone, reads its input, and only a new site and a server ask the clock.
    ensures alone { ((IsServe (map string_bytes words.now) → ⊥) → hub.new ≡ hub.old)
        × ((IsInit (map string_bytes words.now) → ⊥) → (IsServe (map string_bytes words.now) → ⊥) → clock.new ≡ clock.old)
        × ((IsReplay (map string_bytes words.now) → ⊥) → (IsSerial (map string_bytes words.now) → ⊥) → input.new ≡ input.old) }
{
    one_schedule();
    one_bad_line();
    one_opening();
    one_index();
    one_bad_row();
    match read_words(alloc, words) {
        Ok(asked) => {
            let names = names_of(&asked);
            match run_command(alloc, asked, files, input, out, hub, clock) {
                Ok(()) => Status(0),
                Err(refusal) => {
                    let name = names.of(&refusal);
                    refuse(alloc, refusal, name, out)
                }
            }
        }
        Err(WordsRefusal::Usage) => refuse(alloc, Refusal::Usage, "", out),
        Err(WordsRefusal::Memory) => refuse(alloc, Refusal::Memory, "", out),
    }
}
