ghost use Rattle.std.specs.Prelude.{◌≡◌, ℕ, List, Some, IfErr, OnOk, IsErrOf};
ghost use Rattle.zbase.specs.Faults.{Counts};
ghost use Rattle.words.specs.Asking.{Asked as AskedView, asked_of};
ghost use Rattle.words.specs.Views.{view};
ghost use Rattle.zope.specs.Causes.{Cause, Did, LeavesFiles};
ghost use Rattle.zope.specs.Outside.{outside};
ghost use Rattle.zope.specs.Words.{IsInit, IsReplay, IsSerial, IsServe, file_in, named_in, new_in};

use crate::backing_up::back_up_file;
use crate::checking::check_file;
use crate::dumping::dump_file;
use crate::generating::generate;
use crate::making::make_new;
use crate::packs::pack_site;
use crate::refusal::Refusal;
use crate::replaying::{replay_file, serial_file};
use crate::restoring::restore_file;
use crate::serving::serve_site;
use file_server::FileJob;
use std::alloc::Global;
use words::Asked;
use zio::{Clock, Hub, Shelf, Sink, Source};
use zserve::ServePlan;

/// The files, or the repository, that the last line of a command may name.
#[derive(Clone, Copy, Debug)]
pub struct Names<'a> {
    /// The file that the command is over, or the repository.
    pub file: &'a str,
    /// The file that it makes, where it makes one.
    pub new: &'a str,
}

impl<'a> Names<'a> {
    /// The one that a refusal names: where there is one already that was to be made, that.
    pub fn of(self, refusal: &Refusal) -> &'a str
        ensures { (asked : AskedView) → self.entry.file.now ≡ file_in asked → self.entry.new.now ≡ new_in asked → result.now ≡ named_in asked refusal.now }
    {
        match refusal {
            Refusal::Exists => self.new,
            _ => self.file,
        }
    }
}

/// The files that the command is over and makes.
pub fn names_of<'a>(asked: &Asked<'a>) -> Names<'a>
    ensures file { result.file.now ≡ file_in (view asked.now) }
    ensures new { result.new.now ≡ new_in (view asked.now) }
{
    let (file, new) = match asked {
        Asked::Init { file, .. } => (*file, *file),
        Asked::Replay { file, .. } => (*file, *file),
        Asked::Serve { file, record, .. } => (*file, *record),
        Asked::Check { file } => (*file, *file),
        Asked::Dump { file } => (*file, *file),
        Asked::Backup { file, .. } => (*file, *file),
        Asked::Restore { repo, out } => (*repo, *out),
        Asked::Pack { file, .. } => (*file, *file),
        Asked::Serial { file, .. } => (*file, *file),
        Asked::Gen { .. } => ("", ""),
    };
    Names { file, new }
}

/// Runs a command: `init`, `replay`, `serial`, `serve`, `check`, `dump`, `backup`, `restore`, `pack` or `gen`. What is said of words holds of all
/// that ask for it.
pub fn run_command<F: Shelf, S: Source, K: Sink, H: Hub, C: Clock>(
    alloc: Global,
    asked: Asked<'_>,
    files: &mut F,
    input: &mut S,
    out: &mut K,
    hub: &mut H,
    clock: &mut C,
) -> Result<(), Refusal>
where
    F::D: Drop,
    requires asked { (words : List (List ℕ)) × (asked_of words ≡ Some (view asked)) }
    ensures ok { let old = outside (F.files files.old) (F.sound_disks files.old) (F.lasts files.old) (F.counter files.old)
        (S.left input.old) (S.counter input.old) (K.written out.old) (K.counter out.old)
        (H.peers hub.old) (H.listening hub.old) (C.ticks clock.old) (C.counter clock.old) in
        let new = outside (F.files files.new) (F.sound_disks files.new) (F.lasts files.new) (F.counter files.new)
        (S.left input.new) (S.counter input.new) (K.written out.new) (K.counter out.new)
        (H.peers hub.new) (H.listening hub.new) (C.ticks clock.new) (C.counter clock.new) in
        (words : List (List ℕ)) → asked_of words ≡ Some (view asked.entry) → OnOk result (Did words old new) }
    ensures cause { let old = outside (F.files files.old) (F.sound_disks files.old) (F.lasts files.old) (F.counter files.old)
        (S.left input.old) (S.counter input.old) (K.written out.old) (K.counter out.old)
        (H.peers hub.old) (H.listening hub.old) (C.ticks clock.old) (C.counter clock.old) in
        let new = outside (F.files files.new) (F.sound_disks files.new) (F.lasts files.new) (F.counter files.new)
        (S.left input.new) (S.counter input.new) (K.written out.new) (K.counter out.new)
        (H.peers hub.new) (H.listening hub.new) (C.ticks clock.new) (C.counter clock.new) in
        (words : List (List ℕ)) → asked_of words ≡ Some (view asked.entry) → IfErr result (Cause words old new) }
    ensures files { (words : List (List ℕ)) → asked_of words ≡ Some (view asked.entry) → LeavesFiles words (F.files files.old) (F.files files.new) }
    ensures counts { Counts (K.counter out.old) (K.counter out.new) (IsErrOf result Refusal.Output) }
    ensures unread { (words : List (List ℕ)) → asked_of words ≡ Some (view asked.entry)
        → (IsReplay words → ⊥) → (IsSerial words → ⊥) → input.new ≡ input.old }
    ensures unasked { (words : List (List ℕ)) → asked_of words ≡ Some (view asked.entry) → (IsServe words → ⊥) → hub.new ≡ hub.old }
    ensures untimed { (words : List (List ℕ)) → asked_of words ≡ Some (view asked.entry)
        → (IsInit words → ⊥) → (IsServe words → ⊥) → clock.new ≡ clock.old }
{
    match asked {
        Asked::Init {
            file,
            name,
            password,
        } => make_new(alloc, file, name, password, files, out, clock),
        Asked::Replay { file, limit } => replay_file(alloc, file, limit, files, input, out),
        Asked::Serve {
            file,
            port,
            connections,
            clients,
            record,
        } => {
            let plan = ServePlan {
                port,
                connections,
                clients,
            };
            let job = FileJob { file, record, plan };
            serve_site(alloc, job, files, out, hub, clock)
        }
        Asked::Check { file } => check_file(alloc, file, files, out),
        Asked::Dump { file } => dump_file(alloc, file, files, out),
        Asked::Backup { file, repo, full } => back_up_file(alloc, file, repo, full, files, out),
        Asked::Restore { repo, out: name } => restore_file(alloc, repo, name, files, out),
        Asked::Pack { file, before } => pack_site(alloc, file, before, files, out),
        Asked::Serial { file, limit } => serial_file(alloc, file, limit, files, input, out),
        Asked::Gen { number } => generate(alloc, number, out),
    }
}
