ghost use Rattle.std.specs.Prelude.{◌≡◌, ◌≤◌, ◌∷◌, ℕ, List, [], None, IfOk, OnErr, OnOk, length, replicate};
ghost use Rattle.http_in.specs.Messages.{one_message};
ghost use Rattle.http_clients.specs.Arriving.{AreMessages, bytes_of};
ghost use Rattle.schedule.specs.declared.item.Item2.{Item2};
ghost use Rattle.zserve.specs.Going.{Went};
ghost use Rattle.zserve.specs.Happened.{Happening, items};
ghost use Rattle.zserve.specs.Rounds.{RoundDone, round_of};
ghost use Rattle.zserve.specs.Stamped.{Stamps};
ghost use Rattle.zserve.specs.Sweeping.{Waits};
ghost use Rattle.zserve.specs.Taping.{Spelt};

use crate::giving::give_all;
use crate::stamping::stamp_of;
use crate::turning::take_turns;
use evaluator::Evaluator;
use http_clients::Asked;
use http_in::Message;
use schedule::{Item2, WORKERS, write_item};
use std::alloc::Global;
use txn_core::Core;
use zbase::{Bytes, Memory, Tid};
use zdisk::Disk;
use zio::Clock;

// For each worker no reply yet.
fn no_replies(alloc: Global) -> Result<Vec<Option<Bytes>>, Memory>
    ensures { IfOk result (λ replies. replies.items ≡ replicate WORKERS None) }
{
    let mut replies = Vec::with_capacity(alloc, WORKERS)?;
    for _ in 0..WORKERS {
        replies.push_reserved(None);
    }
    Ok(replies)
}

// Puts the reading of the clock into the text of the tape.
fn put_clock(now: Tid, text: &mut Bytes) -> Result<(), Memory>
    ensures { OnOk result (Spelt text.old (Item2.Clock now ∷ []) text.new) }
{
    write_item(&Item2::Clock(now), text)
}

/// A round of a core whose workers have no request: the messages are given to them from the first on, the clock is read, and the
/// workers step in turns until each has its reply. The replies, by their workers; the text has what happened.
pub(crate) fn run_round<D: Disk + Drop, E: Evaluator<Request = Message>, C: Clock>(
    alloc: Global,
    core: &mut Core<D, E>,
    clock: &mut C,
    asked: Vec<Asked>,
    text: &mut Bytes,
) -> Result<Vec<Option<Bytes>>, Memory>
    requires idle { Waits core.old [] }
    requires few { length asked.items ≤ WORKERS }
    requires takes { (bytes : List ℕ) → E.takes bytes ≡ one_message bytes }
    requires messages { AreMessages asked.items }
    ensures done { IfOk result (λ replies. (stamp : ℕ) × (turns : List (List Happening))
        × ((since : ℕ) → RoundDone E.takes E.meaning core.old core.new since stamp (bytes_of asked.items) turns replies.items)
        × Stamps (C.ticks clock.old) (C.counter clock.old) stamp (C.ticks clock.new) (C.counter clock.new)
        × Spelt text.old (items (round_of (bytes_of asked.items) stamp turns)) text.new) }
    ensures went { OnErr result ((since : ℕ) → Went E.takes E.meaning core.old since core.new) }
{
    let waiting = give_all(alloc, core, asked, text)?;
    core.store().is_sound();
    let mut replies = no_replies(alloc)?;
    let now = stamp_of(clock);
    put_clock(now, text)?;
    take_turns(alloc, core, now, waiting, &mut replies, text)?;
    Ok(replies)
}
