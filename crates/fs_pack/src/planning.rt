ghost use Rattle.std.specs.Prelude.{◌≡◌, ◌≤◌, ℕ, List, IfOk, IfSome, IsErrOf, Some, length};
ghost use Rattle.zbase.specs.History.{Value};
ghost use Rattle.zdisk.specs.Disk.{content};
ghost use Rattle.fs_record.specs.declared.damage.Damage.{Damage as Kind};
ghost use Rattle.fs_record.specs.Opening.{Damaged};
ghost use Rattle.fs_scan.specs.OnlyReads.{OnlyReads};
ghost use Rattle.fs_pack.specs.Chosen.{marks_of};
ghost use Rattle.fs_pack.specs.KeepLaws.{least_of};
ghost use Rattle.fs_pack.specs.Marked.{is_in};
ghost use Rattle.fs_pack.specs.Measured.{IsOver};
ghost use Rattle.fs_pack.specs.Numbered.{AreNumbered, oids_of};
ghost use Rattle.fs_pack.specs.Plans.{Draws, LacksObject, PassesLimit, StandsFor};
ghost use Rattle.fs_pack.specs.declared.refusal.PackRefusal.{PackRefusal as Refusal};
ghost use Rattle.fs_pack.specs.declared.refusal.PackRefusal.TheVariants as refusals;

use crate::drawing::draw;
use crate::marking::{broken_by, lead_on};
use crate::surveying::Survey;
use crate::{PackRefusal, Plan};
use fs_scan::Walk;
use packing::Links;
use std::alloc::Global;
use zbase::{Memory, Oid, Tid};
use zdisk::Disk;

/// The lesser of two ids that may be missing.
fn least_of(first: Option<Oid>, second: Option<Oid>) -> Option<Oid>
    ensures { result ≡ least_of first second }
{
    match first {
        Some(oid) => broken_by(true, oid, second),
        None => second,
    }
}

/// The plan of what a survey keeps, without its numbers.
fn chosen(alloc: Global, before: Tid, survey: &Survey) -> Result<Plan, Memory>
    ensures at { IfOk result (λ plan. plan.before ≡ before) }
    ensures until { IfOk result (λ plan. plan.until ≡ survey.now.until) }
    ensures marks { IfOk result (λ plan. (rs : List (ℕ × Value)) → survey.now.records ≡ length (oids_of rs)
        → AreNumbered survey.now.newest (oids_of rs) → plan.marks ≡ marks_of (is_in survey.now.kept) rs) }
{
    Ok(Plan {
        before,
        until: survey.until,
        marks: draw(alloc, &survey.newest, survey.records, &survey.kept)?,
        floor: Tid(0),
        count: 0,
        size: 0,
    })
}

/// The plan without its numbers. What the survey held is let go before the file is read again.
fn drawn<D: Disk, L: Links>(
    alloc: Global,
    disk: &mut D,
    before: Tid,
    links: &L,
) -> Result<Plan, PackRefusal>
    ensures drawn { IfOk result (λ plan. IfSome (D.told disk.old) (λ told. Draws L.linked (content told) plan)) }
    ensures at { IfOk result (λ plan. plan.before ≡ before) }
    ensures damaged { (kind : Kind) (place : ℕ) → IsErrOf result (PackRefusal.Damaged kind place)
        → IfSome (D.told disk.old) (λ told. Damaged (content told) place kind) }
    ensures unreadable { (o : ℕ) → IsErrOf result (PackRefusal.Unreadable o) → IfSome (D.told disk.old) (λ told. LacksObject L.linked (content told) before o) }
    ensures fits { (need most : ℕ) → IsErrOf result (PackRefusal.Full need most) → ⊥ }
    ensures only_from { IsErrOf result PackRefusal.To → ⊥ }
    ensures only_reads { OnlyReads D.Disk disk.old disk.new (IsErrOf result PackRefusal.From) }
{
    let mut walk = Walk::new(alloc);
    let mut survey = Survey::new(alloc)?;
    survey.pass(&mut walk, disk, before, links)?;
    let broken = lead_on(alloc, disk, &walk, &survey.newest, links, &mut survey.kept)?;
    match least_of(broken, survey.broken) {
        Some(oid) => Err(PackRefusal::Unreadable(oid)),
        None => Ok(chosen(alloc, before, &survey)?),
    }
}

/// The size, where it is within the limit.
fn within(size: Option<u64>, limit: u64) -> Result<u64, PackRefusal>
    ensures within { IfOk result (λ n. (size ≡ Some n) × (n ≤ limit)) }
    ensures full { (refusal : Refusal) → IsErrOf result refusal → (need : ℕ) × (refusal ≡ refusals.Full need limit) × IsOver size limit need }
{
    let need = match size {
        Some(size) => size,
        None => return Err(PackRefusal::Full {
            need: u64::MAX,
            limit,
        }),
    };
    if need > limit {
        return Err(PackRefusal::Full { need, limit });
    }
    Ok(need)
}

/// Plans a pack of a disk's file at a time: no larger file than the limit, in bytes, is packed. It changes nothing.
///
/// ZODB Programming Guide, "Packing and garbage collection".
pub fn plan<D: Disk, L: Links>(
    alloc: Global,
    disk: &mut D,
    before: Tid,
    limit: u64,
    links: &L,
) -> Result<Plan, PackRefusal>
    ensures planned { IfOk result (λ plan. IfSome (D.told disk.old) (λ told. StandsFor L.linked (content told) plan)) }
    ensures at { IfOk result (λ plan. (plan.before ≡ before) × (plan.size ≤ limit)) }
    ensures damaged { (kind : Kind) (place : ℕ) → IsErrOf result (PackRefusal.Damaged kind place)
        → IfSome (D.told disk.old) (λ told. Damaged (content told) place kind) }
    ensures unreadable { (o : ℕ) → IsErrOf result (PackRefusal.Unreadable o) → IfSome (D.told disk.old) (λ told. LacksObject L.linked (content told) before o) }
    ensures full { (need most : ℕ) → IsErrOf result (PackRefusal.Full need most)
        → (most ≡ limit) × IfSome (D.told disk.old) (λ told. PassesLimit L.linked (content told) before need limit) }
    ensures only_from { IsErrOf result PackRefusal.To → ⊥ }
    ensures only_reads { OnlyReads D.Disk disk.old disk.new (IsErrOf result PackRefusal.From) }
{
    let plan = drawn(alloc, disk, before, links)?;
    let tally = plan.measure(alloc, disk)?;
    let size = within(tally.size, limit)?;
    Ok(plan.with(tally, size))
}
