ghost use Rattle.std.specs.Prelude.{◌≡◌, ◌≤◌, ◌++◌, ◌∷◌, ℕ, Some, [], false, IfErr, IfOk, IfSome, IsErrOf, OnOk};
ghost use Rattle.std.specs.List.{list_any};
ghost use Rattle.zbase.specs.Faults.{Counts, IsFaultless, Spends, no_arms};
ghost use Rattle.zbase.specs.History.{History};
ghost use Rattle.zdisk.specs.Disk.{Told, content};
ghost use Rattle.packing.specs.Reachable.{Linking};
ghost use Rattle.fs_pack.specs.Plans.{StandsFor, IsPacked as IsWritten};
ghost use Rattle.zio.specs.Sinks.{due};
ghost use Rattle.schedule.specs.Explained.{history_lines};
ghost use Rattle.schedule.specs.declared.item.Item2.{Item2};
ghost use Rattle.schedule.specs.declared.line.Line.{Line};
ghost use Rattle.fs_store.specs.Moments.{IsWhole, OpensTo};
ghost use Rattle.fs_store.specs.Stores.{IsTold, most_length};
ghost use Rattle.txn_core.specs.Cores.{IsAtRest, is_taken};
ghost use Rattle.replay.specs.Held.{TellsFile};
ghost use Rattle.replay.specs.Kept.{GoesNeeded, IsUnarmed};
ghost use Rattle.replay.specs.Packs.{IsCalm, IsPacked, IsStoreOf, IsUnmade, PackedFrom, why_unmade, unmade_line};
ghost use Rattle.replay.specs.Printed.{Prints};
ghost use Rattle.replay.specs.Refusals.{IsOfPrinting};
ghost use Rattle.replay.specs.declared.pack.Unmade.{Unmade};

use crate::dumping::{DumpRefusal, put_history};
use crate::item::{Run, broken_off};
use crate::printing::put_line;
use crate::refusal::RunRefusal;
use crate::restarting::restart;
use evaluator::Evaluator;
use fs_pack::{PackRefusal, Packed, Plan, plan, write};
use fs_store::{LoadRefusal, OpenRefusal, Store};
use packing::Links;
use schedule::Line;
use std::alloc::Global;
use txn_core::Core;
use zbase::{Bytes, Memory, Oid, Tid};
use zdisk::{Disk, MemoryDisk};
use zio::{OutsideRefusal, Pending, Sink};

/// A packed file: its store, on a disk of its own, with its floor and the number of its transactions.
struct Made {
    store: Store<MemoryDisk>,
    floor: Tid,
    count: u64,
}

/// Why a file isn't packed.
#[derive(Clone, Copy, Debug, PartialEq, Eq)]
enum Unmade {
    /// An object that is kept can't be read, of which this is the least.
    Unreadable(Oid),
    /// The packed file would need so many bytes, more than it may have.
    Full(u64),
    /// Want of memory.
    Memory,
}

// Why a file without damage isn't packed, where no disk fails.
fn why_unmade(refusal: PackRefusal) -> Unmade
    requires { IsCalm refusal }
    ensures { result ≡ why_unmade refusal }
{
    match refusal {
        PackRefusal::Unreadable(oid) => Unmade::Unreadable(oid),
        PackRefusal::Full { need, limit: _ } => Unmade::Full(need),
        PackRefusal::Memory => Unmade::Memory,
        PackRefusal::Damaged(_, _) | PackRefusal::From | PackRefusal::To => unreachable!(),
    }
}

// The line that says why a file isn't packed.
fn unmade_line(limit: u64, why: Unmade) -> Line
    ensures { result ≡ unmade_line limit why }
{
    match why {
        Unmade::Unreadable(oid) => Line::PackUnreadable(oid),
        Unmade::Full(need) => Line::PackFull(need, limit),
        Unmade::Memory => Line::PackMemory,
    }
}

// Plans the pack of a disk's file.
fn plan_pack<L: Links>(
    alloc: Global,
    from: &mut MemoryDisk,
    before: Tid,
    limit: u64,
    links: &L,
) -> Result<Plan, Unmade>
    requires file { (h : History) × TellsFile (⟦<MemoryDisk as Disk>⟧.told from.old) h }
    requires calm { IsFaultless (⟦<MemoryDisk as Disk>⟧.counter from.old) }
    ensures planned { IfOk result (λ plan. IfSome (⟦<MemoryDisk as Disk>⟧.told from.old) (λ told. StandsFor L.linked (content told) plan)) }
    ensures at { IfOk result (λ plan. (plan.before ≡ before) × (plan.size ≤ limit)) }
    ensures refused { (h : History) → TellsFile (⟦<MemoryDisk as Disk>⟧.told from.old) h → IfErr result (IsUnmade L.linked limit before h) }
    ensures same { ⟦<MemoryDisk as Disk>⟧.told from.new ≡ ⟦<MemoryDisk as Disk>⟧.told from.old }
    ensures calm { IsFaultless (⟦<MemoryDisk as Disk>⟧.counter from.new) }
{
    match plan(alloc, from, before, limit, links) {
        Ok(plan) => Ok(plan),
        Err(refusal) => Err(why_unmade(refusal)),
    }
}

// Writes what a plan stands for to a disk of its own.
fn write_pack(
    alloc: Global,
    from: &mut MemoryDisk,
    plan: &Plan,
) -> Result<(MemoryDisk, Packed), Memory>
    requires planned { (told : Told) × ((⟦<MemoryDisk as Disk>⟧.told from.old ≡ Some told) × ((links : Linking) × StandsFor links (content told) plan.now)) }
    requires calm { IsFaultless (⟦<MemoryDisk as Disk>⟧.counter from.old) }
    ensures written { IfOk result (λ (disk, done). (told : Told) → ⟦<MemoryDisk as Disk>⟧.told from.old ≡ Some told
        → (links : Linking) (s : StandsFor links (content told) plan.now)
        → (left : Told) × ((⟦<MemoryDisk as Disk>⟧.told disk ≡ Some left) × IsWritten s.packs (content left) done)) }
    ensures unarmed { IfOk result (λ (disk, _). IsFaultless (⟦<MemoryDisk as Disk>⟧.counter disk)
        × Spends no_arms (⟦<MemoryDisk as Disk>⟧.counter disk).arms) }
    ensures same { ⟦<MemoryDisk as Disk>⟧.told from.new ≡ ⟦<MemoryDisk as Disk>⟧.told from.old }
    ensures calm { IsFaultless (⟦<MemoryDisk as Disk>⟧.counter from.new) }
{
    let mut to = MemoryDisk::new(alloc, Bytes::new(alloc));
    match write(alloc, from, plan, &mut to) {
        Ok(packed) => Ok((to, packed)),
        Err(PackRefusal::Memory) => Err(Memory),
        // What was planned is readable and has room, and neither disk can fail.
        Err(PackRefusal::Unreadable(_)) | Err(PackRefusal::Full { .. }) => unreachable!(),
        Err(PackRefusal::Damaged(_, _)) | Err(PackRefusal::From) | Err(PackRefusal::To) => {
            unreachable!()
        }
    }
}

// The store of a packed file, which opens to this history.
fn open_pack(alloc: Global, disk: MemoryDisk, limit: u64) -> Result<Store<MemoryDisk>, Memory>
    requires limit { limit ≤ most_length }
    requires opens { (told : Told) × ((⟦<MemoryDisk as Disk>⟧.told disk ≡ Some told) × ((h : History) × ((end : ℕ) × OpensTo (content told) h end))) }
    requires calm { IsFaultless (⟦<MemoryDisk as Disk>⟧.counter disk) }
    ensures opened { (told : Told) (h : History) (end : ℕ) → ⟦<MemoryDisk as Disk>⟧.told disk ≡ Some told → OpensTo (content told) h end
        → IfOk result (IsStoreOf h end limit) }
    ensures spends { IfOk result (λ store. Spends (⟦<MemoryDisk as Disk>⟧.counter disk).arms store.disk.counter.arms) }
{
    match Store::open(alloc, disk, limit) {
        Ok(store) => {
            store.is_sound();
            Ok(store)
        }
        Err((OpenRefusal::Memory, _)) => Err(Memory),
        // Nothing is armed, so the disk doesn't fail.
        Err((OpenRefusal::Disk, _)) => unreachable!(),
        // What a pack writes opens, and is within the limit.
        Err((OpenRefusal::Damaged(_, _), _)) => unreachable!(),
        Err((OpenRefusal::TooLong(_), _)) => unreachable!(),
    }
}

// Packs the file of a disk into a store of its own. The bytes that are packed aren't let go before that store is opened: for
// want of memory there the pack is refused, and the run goes on over the file that there was, whose history isn't printed then.
fn make_pack<L: Links>(
    alloc: Global,
    from: &mut MemoryDisk,
    before: Tid,
    limit: u64,
    links: &L,
) -> Result<Made, Unmade>
    requires limit { limit ≤ most_length }
    requires file { (h : History) × TellsFile (⟦<MemoryDisk as Disk>⟧.told from.old) h }
    requires calm { IsFaultless (⟦<MemoryDisk as Disk>⟧.counter from.old) }
    ensures made { (h : History) → TellsFile (⟦<MemoryDisk as Disk>⟧.told from.old) h
        → IfOk result (λ made. IsPacked L.linked limit before h made.store made.floor made.count) }
    ensures refused { (h : History) → TellsFile (⟦<MemoryDisk as Disk>⟧.told from.old) h → IfErr result (IsUnmade L.linked limit before h) }
    ensures same { ⟦<MemoryDisk as Disk>⟧.told from.new ≡ ⟦<MemoryDisk as Disk>⟧.told from.old }
    ensures calm { IsFaultless (⟦<MemoryDisk as Disk>⟧.counter from.new) }
{
    let plan = match plan_pack(alloc, from, before, limit, links) {
        Ok(plan) => plan,
        Err(why) => return Err(why),
    };
    let (disk, packed) = match write_pack(alloc, from, &plan) {
        Ok(written) => written,
        Err(_) => return Err(Unmade::Memory),
    };
    match open_pack(alloc, disk, limit) {
        Ok(store) => Ok(Made {
            store,
            floor: packed.floor,
            count: packed.count,
        }),
        Err(_) => Err(Unmade::Memory),
    }
}

// Writes the history that a pack ends, and what the pack says.
fn put_packed<K: Sink>(
    alloc: Global,
    from: &mut MemoryDisk,
    floor: Tid,
    count: u64,
    held: &mut Pending,
    out: &mut K,
) -> Result<(), OutsideRefusal>
    requires file { (h : History) × TellsFile (⟦<MemoryDisk as Disk>⟧.told from.old) h }
    requires calm { IsFaultless (⟦<MemoryDisk as Disk>⟧.counter from.old) }
    ensures ok { (h : History) → TellsFile (⟦<MemoryDisk as Disk>⟧.told from.old) h
        → OnOk result (Prints (due (K.written out.old) held.old) (due (K.written out.new) held.new) (history_lines h ++ Line.Packed floor count ∷ [])) }
    ensures counts { Counts (K.counter out.old) (K.counter out.new) (IsErrOf result OutsideRefusal.Failed) }
{
    match put_history(alloc, from, held, out) {
        Ok(()) => put_line(alloc, &Line::Packed(floor, count), held, out),
        Err(DumpRefusal::Output) => Err(OutsideRefusal::Failed),
        Err(DumpRefusal::Memory) => Err(OutsideRefusal::Memory),
        // The disk can't fail, and holds a file, in which there is no damage.
        Err(DumpRefusal::Disk) => unreachable!(),
        Err(DumpRefusal::Damaged(_, _)) => unreachable!(),
    }
}

// Writes the one line of a pack that leaves the core as it is.
fn say<E: Evaluator, K: Sink>(
    alloc: Global,
    core: Core<MemoryDisk, E>,
    line: &Line,
    held: &mut Pending,
    out: &mut K,
) -> Result<Core<MemoryDisk, E>, RunRefusal>
    ensures same { IfOk result (λ new. new ≡ core) }
    ensures printed { OnOk result (Prints (due (K.written out.old) held.old) (due (K.written out.new) held.new) (line.now ∷ [])) }
    ensures refused { IfErr result IsOfPrinting }
    ensures counts { Counts (K.counter out.old) (K.counter out.new) (IsErrOf result RunRefusal.Output) }
{
    match put_line(alloc, line, held, out) {
        Ok(()) => Ok(core),
        Err(refusal) => broken_off(core, RunRefusal::from(refusal)),
    }
}

// Packs the file of these bytes, and goes on over what is left of it.
fn pack_bytes<E: Evaluator, L: Links, K: Sink>(
    alloc: Global,
    core: Core<MemoryDisk, E>,
    bytes: Bytes,
    limit: u64,
    before: Tid,
    links: &L,
    held: &mut Pending,
    out: &mut K,
) -> Result<Core<MemoryDisk, E>, RunRefusal>
    requires rest { list_any is_taken core.slots ≡ false }
    requires running { core.store.disk.counter.arms.stopped ≡ false }
    requires whole { IsWhole core.store bytes }
    requires limit { limit ≤ most_length }
    ensures packed { IfOk result (λ new. PackedFrom L.linked limit before core new
        (due (K.written out.old) held.old) (due (K.written out.new) held.new)) }
    ensures refused { IfErr result IsOfPrinting }
    ensures counts { Counts (K.counter out.old) (K.counter out.new) (IsErrOf result RunRefusal.Output) }
{
    let mut from = MemoryDisk::new(alloc, bytes);
    match make_pack(alloc, &mut from, before, limit, links) {
        Ok(made) => {
            let Made {
                store,
                floor,
                count,
            } = made;
            match put_packed(alloc, &mut from, floor, count, held, out) {
                Ok(()) => {}
                Err(refusal) => return broken_off(core, RunRefusal::from(refusal)),
            }
            let mut core = core;
            core.replace(store);
            Ok(core)
        }
        Err(why) => say(alloc, core, &unmade_line(limit, why), held, out),
    }
}

// Packs the file under a core up to a transaction, where no worker has a request.
fn pack_idle<E: Evaluator, L: Links, K: Sink>(
    alloc: Global,
    core: Core<MemoryDisk, E>,
    limit: u64,
    before: Tid,
    links: &L,
    held: &mut Pending,
    out: &mut K,
) -> Result<Core<MemoryDisk, E>, RunRefusal>
    requires told { IsTold core.store }
    requires running { core.store.disk.counter.arms.stopped ≡ false }
    requires limit { (limit ≡ core.store.limit) × (limit ≤ most_length) }
    requires idle { list_any is_taken core.slots ≡ false }
    requires rest { IsAtRest E.meaning core }
    ensures limit { IfOk result (λ new. new.store.limit ≡ core.store.limit) }
    ensures told { IfOk result (λ new. IsTold new.store) }
    ensures rest { IfOk result (λ new. IsAtRest E.meaning core → IsAtRest E.meaning new) }
    ensures unarmed { IfOk result (λ new. IsUnarmed core.store → IsUnarmed new.store) }
    ensures ok { IfOk result (λ new. (clock : ℕ) → GoesNeeded E.takes E.meaning L.linked limit core clock (Item2.Pack before ∷ []) new clock
        (due (K.written out.old) held.old) (due (K.written out.new) held.new)) }
    ensures refused { IfErr result IsOfPrinting }
    ensures counts { Counts (K.counter out.old) (K.counter out.new) (IsErrOf result RunRefusal.Output) }
{
    let mut core = core;
    // Where nothing waits in the queue, the bytes can't fail.
    let _running = core.stopped();
    match core.bytes() {
        Ok(bytes) => {
            core.store().is_sound();
            pack_bytes(alloc, core, bytes, limit, before, links, held, out)
        }
        Err(LoadRefusal::Memory) => {
            core.store().is_sound();
            say(alloc, core, &Line::PackMemory, held, out)
        }
        Err(LoadRefusal::Disk) => {
            core.store().is_sound();
            if core.stopped() {
                return restart(alloc, core, limit, None, held, out);
            }
            say(alloc, core, &Line::PackFault, held, out)
        }
    }
}

// Packs the file under a core up to a transaction.
fn pack_core<E: Evaluator, L: Links, K: Sink>(
    alloc: Global,
    core: Core<MemoryDisk, E>,
    limit: u64,
    before: Tid,
    links: &L,
    held: &mut Pending,
    out: &mut K,
) -> Result<Core<MemoryDisk, E>, RunRefusal>
    requires told { IsTold core.store }
    requires running { core.store.disk.counter.arms.stopped ≡ false }
    requires limit { (limit ≡ core.store.limit) × (limit ≤ most_length) }
    ensures limit { IfOk result (λ new. new.store.limit ≡ core.store.limit) }
    ensures told { IfOk result (λ new. IsTold new.store) }
    ensures rest { IfOk result (λ new. IsAtRest E.meaning core → IsAtRest E.meaning new) }
    ensures unarmed { IfOk result (λ new. IsUnarmed core.store → IsUnarmed new.store) }
    ensures ok { IfOk result (λ new. (clock : ℕ) → GoesNeeded E.takes E.meaning L.linked limit core clock (Item2.Pack before ∷ []) new clock
        (due (K.written out.old) held.old) (due (K.written out.new) held.new)) }
    ensures refused { IfErr result IsOfPrinting }
    ensures counts { Counts (K.counter out.old) (K.counter out.new) (IsErrOf result RunRefusal.Output) }
{
    core.store().is_sound();
    if core.is_idle() {
        return pack_idle(alloc, core, limit, before, links, held, out);
    }
    say(alloc, core, &Line::PackBusy, held, out)
}

/// Packs the file up to a transaction, where no worker has a request, and writes what came of it. The bytes of the file are asked
/// for by the core; no other call of this can meet an armed entry.
pub(crate) fn run_pack<E: Evaluator, L: Links, K: Sink>(
    alloc: Global,
    run: Run<E>,
    before: Tid,
    links: &L,
    held: &mut Pending,
    out: &mut K,
) -> Result<Run<E>, RunRefusal>
    requires told { IsTold run.core.store }
    requires running { run.core.store.disk.counter.arms.stopped ≡ false }
    requires limit { (run.limit ≡ run.core.store.limit) × (run.limit ≤ most_length) }
    ensures limit { IfOk result (λ new. (new.limit ≡ run.limit) × (new.core.store.limit ≡ run.limit)) }
    ensures told { IfOk result (λ new. IsTold new.core.store) }
    ensures rest { IfOk result (λ new. IsAtRest E.meaning run.core → IsAtRest E.meaning new.core) }
    ensures unarmed { IfOk result (λ new. IsUnarmed run.core.store → IsUnarmed new.core.store) }
    ensures ok { IfOk result (λ new. GoesNeeded E.takes E.meaning L.linked run.limit run.core run.clock (Item2.Pack before ∷ []) new.core new.clock
        (due (K.written out.old) held.old) (due (K.written out.new) held.new)) }
    ensures refused { IfErr result IsOfPrinting }
    ensures counts { Counts (K.counter out.old) (K.counter out.new) (IsErrOf result RunRefusal.Output) }
{
    let Run { core, limit, clock } = run;
    let core = pack_core(alloc, core, limit, before, links, held, out)?;
    Ok(Run { core, limit, clock })
}
