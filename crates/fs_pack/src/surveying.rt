ghost use Rattle.std.specs.Prelude.{◌≡◌, ◌+◌, ◌<◌, ℕ, List, IfOk, IfSome, IsErrOf, None, OnOk, Some, [], length};
ghost use Rattle.zdisk.specs.Disk.{content};
ghost use Rattle.fs_index.specs.Places.{place_of};
ghost use Rattle.fs_record.specs.declared.damage.Damage.{Damage as Kind};
ghost use Rattle.fs_record.specs.Opening.{Damaged};
ghost use Rattle.fs_scan.specs.OnlyReads.{OnlyReads};
ghost use Rattle.fs_scan.specs.Walked.{IsFresh, IsOn};
ghost use Rattle.fs_scan.specs.Wholes.{records_in};
ghost use Rattle.packing.specs.Reachable.{Linking};
ghost use Rattle.fs_pack.specs.Entries.{entry_of};
ghost use Rattle.fs_pack.specs.Numbered.{last_number, oids_of};
ghost use Rattle.fs_pack.specs.Surveyed.{SurveyOf, Surveys, Takes, failing, seeded};

use crate::marking::{broken_by, lead};
use crate::marks::Marks;
use fs_index::Index;
use fs_record::MAX_LENGTH;
use fs_scan::{OidValue, ScanRefusal, Walk, Whole};
use packing::Links;
use std::alloc::Global;
use zbase::{Memory, Oid, Tid};
use zdisk::Disk;

/// What a pass over a file finds that is to be packed.
#[derive(Drop)]
pub(crate) struct Survey {
    /// The number of each object's last data record up to the pack, counted from 1.
    pub newest: Index,
    /// How many data records the transactions up to the pack have.
    pub records: u64,
    /// The id of the last of these transactions, 0 for none.
    pub until: Tid,
    /// The root, the objects that were written later, and what their later values lead to.
    pub kept: Marks,
    /// The least of the objects of which a later value can't be read.
    pub broken: Option<Oid>,
}

/// Numbers records that stand behind so many others: each is its object's last one. It answers how many there are then.
fn number_on(newest: &mut Index, first: u64, values: &[OidValue]) -> Result<u64, Memory>
    ensures newest { IfOk result (λ _. (o : ℕ) → place_of newest.new o ≡ last_number o (place_of newest.old o) first (oids_of (records_in values.now))) }
    ensures records { IfOk result (λ number. number ≡ first + length (oids_of (records_in values.now))) }
{
    let mut number = first;
    for value in values {
        // a file has less than 2^48 bytes, and so many records
        if number >= MAX_LENGTH {
            return Err(Memory);
        }
        number += 1;
        newest.reserve(&[value.oid])?;
        newest.put(value.oid, number);
    }
    Ok(number)
}

/// Adds the objects of later records, and what their values lead to. It answers the least object of which a value can't be
/// read, with that of earlier transactions.
fn seed<L: Links>(
    links: &L,
    values: &[OidValue],
    kept: &mut Marks,
    broken: Option<Oid>,
) -> Result<Option<Oid>, Memory>
    ensures kept { IfOk result (λ _. kept.new ≡ seeded L.linked (records_in values.now) kept.old) }
    ensures broken { IfOk result (λ found. found ≡ failing L.linked (records_in values.now) broken) }
{
    let mut broken = broken;
    for value in values {
        kept.add(value.oid)?;
        let none = lead(links, &value.value, kept)?;
        broken = broken_by(none, value.oid, broken);
    }
    Ok(broken)
}

impl Survey {
    /// What is found before the first transaction: the root is kept.
    pub fn new(alloc: Global) -> Result<Survey, Memory>
        ensures { IfOk result (λ survey. (links : Linking) (t : ℕ) → SurveyOf links t [] survey) }
    {
        let mut kept = Marks::new(alloc);
        kept.add(Oid(0))?;
        Ok(Survey {
            newest: Index::new(alloc),
            records: 0,
            until: Tid(0),
            kept,
            broken: None,
        })
    }

    // Takes in the next transaction.
    fn take<L: Links>(&mut self, before: Tid, whole: &Whole, links: &L) -> Result<(), Memory>
        ensures { OnOk result (Takes L.linked before (entry_of whole.now) self.old self.new) }
    {
        let values = whole.values.as_slice();
        if whole.tid.0 <= before.0 {
            self.records = number_on(&mut self.newest, self.records, values)?;
            self.until = whole.tid;
        } else {
            self.broken = seed(links, values, &mut self.kept, self.broken)?;
        }
        Ok(())
    }

    /// Takes in all transactions of a disk's file.
    pub fn pass<D: Disk, L: Links>(
        &mut self,
        walk: &mut Walk,
        disk: &mut D,
        before: Tid,
        links: &L,
    ) -> Result<(), ScanRefusal>
        requires begun { IsFresh walk.old }
        requires on { (bytes : List ℕ) → IsOn bytes walk.old }
        requires found { SurveyOf L.linked before [] self.old }
        ensures surveyed { OnOk result (IfSome (D.told disk.old) (λ told. Surveys L.linked (content told) before walk.new.kept.places self.new)) }
        ensures damaged { (kind : Kind) (place : ℕ) → IsErrOf result (ScanRefusal.Damaged kind place)
            → IfSome (D.told disk.old) (λ told. Damaged (content told) place kind) }
        ensures only_reads { OnlyReads D.Disk disk.old disk.new (IsErrOf result ScanRefusal.Disk) }
    {
        'each: loop {
            match walk.next(disk)? {
                Some(whole) => self.take(before, &whole, links)?,
                None => return Ok(()),
            }
        }
    }
}
