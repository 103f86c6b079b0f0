ghost use Rattle.std.specs.Prelude.{◌≡◌, ◌-◌, ◌<◌, IfOk, IfSome, IsErrOf, map};
ghost use Rattle.std.specs.Option.{option_map};
ghost use Rattle.zbase.specs.Values.{before, transaction, upto};
ghost use Rattle.evaluator.specs.Facts.{last_records, part_of, parts_of, unpacked_at};
ghost use Rattle.fs_scan.specs.OnlyReads.{OnlyReads};
ghost use Rattle.fs_scan.specs.Wholes.{records_in};
ghost use Rattle.fs_store.specs.Fronts.{history_at};
ghost use Rattle.fs_store.specs.Knowing.{IsKnown};
ghost use Rattle.fs_store.specs.Parts.{records_of};
ghost use Rattle.fs_store.specs.Finding.{CostsLoad};
ghost use Rattle.fs_store.specs.Seeking.{CostsLoads, CostsParts, CostsValues, objects_of};

use crate::file::OpenFile;
use crate::reads::copy_of;
use crate::{LoadRefusal, Loaded};
use evaluator::{Part, Parts};
use fs_scan::{OidValue, OidValues, values_at};
use std::alloc::Global;
use std::collections::BTreeSet;
use zbase::Tid;
use zdisk::Disk;

impl OpenFile {
    // The values that the transaction with this id gives, where there is one.
    fn values_with<D: Disk>(
        &self,
        alloc: Global,
        disk: &mut D,
        tid: u64,
    ) -> Result<Option<OidValues>, LoadRefusal>
        requires { IsKnown (D.told disk.old) self.now }
        ensures found { IfOk result (λ found. IfSome (D.told disk.old)
            (λ told. option_map records_in found ≡ option_map records_of (transaction (history_at told self.now.end) tid))) }
        ensures reads { IfOk result (λ found. IfSome (D.told disk.old)
            (λ told. CostsValues told self.now.end tid found (D.counter disk.old).calls (D.counter disk.new).calls)) }
        ensures only_reads { OnlyReads D.Disk disk.old disk.new (IsErrOf result LoadRefusal.Disk) }
    {
        let Some(found) = self.seek(disk, tid)? else {
            return Ok(None);
        };
        let values = values_at(alloc, disk, self.len, found.place, &found.head)?;
        Ok(values)
    }

    // What a record of a transaction did to its object.
    fn part_of<D: Disk>(
        &self,
        alloc: Global,
        disk: &mut D,
        written: &OidValue,
        tid: u64,
    ) -> Result<Part, LoadRefusal>
        requires known { IsKnown (D.told disk.old) self.now }
        requires positive { 0 < tid }
        ensures part { IfOk result (λ part. IfSome (D.told disk.old)
            (λ told. part ≡ part_of (before (history_at told self.now.end) tid) (written.now.oid, written.now.value))) }
        ensures reads { IfSome (D.told disk.old)
            (λ told. CostsLoad told self.now.end written.now.oid (tid - 1) (D.counter disk.old).calls (D.counter disk.new).calls) }
        ensures only_reads { OnlyReads D.Disk disk.old disk.new (IsErrOf result LoadRefusal.Disk) }
    {
        let after = copy_of(&written.value)?;
        let Loaded {
            value,
            serial,
            place: _,
        } = self.load(alloc, disk, written.oid, Tid(tid - 1))?;
        Ok(Part {
            oid: written.oid,
            after,
            before: value,
            before_serial: serial,
        })
    }

    // What the transaction with this id did by its records. They are gone through from the last one, since of two of
    // an object the last counts.
    fn parts_of<D: Disk>(
        &self,
        alloc: Global,
        disk: &mut D,
        values: &[OidValue],
        tid: u64,
    ) -> Result<Parts, LoadRefusal>
        requires known { IsKnown (D.told disk.old) self.now }
        requires positive { 0 < tid }
        ensures parts { IfOk result (λ parts. IfSome (D.told disk.old)
            (λ told. parts ≡ map (part_of (before (history_at told self.now.end) tid)) (last_records (records_in values.now)))) }
        ensures reads { IfOk result (λ parts. IfSome (D.told disk.old)
            (λ told. CostsLoads told self.now.end (tid - 1) (objects_of parts) (D.counter disk.old).calls (D.counter disk.new).calls)) }
        ensures only_reads { OnlyReads D.Disk disk.old disk.new (IsErrOf result LoadRefusal.Disk) }
    {
        let mut parts = Vec::with_capacity(alloc, values.len())?;
        let mut seen = BTreeSet::new(alloc);
        let mut left = values.len();
        while left > 0 {
            left -= 1;
            let written = &values[left];
            if seen.insert(written.oid.0)? {
                parts.push(self.part_of(alloc, disk, written, tid)?)?;
            }
        }
        parts.reverse();
        Ok(Parts::from_vec(parts))
    }

    /// What the transaction with this id did, where there is one above the floor and up to another. It is looked for from
    /// the file's end: two device calls for each transaction that isn't older, one for its records, and for each part a load
    /// of the value before.
    pub(crate) fn transaction<D: Disk>(
        &self,
        alloc: Global,
        disk: &mut D,
        tid: u64,
        at: u64,
    ) -> Result<Option<Parts>, LoadRefusal>
        requires { IsKnown (D.told disk.old) self.now }
        ensures parts { IfOk result (λ parts. IfSome (D.told disk.old)
            (λ told. parts ≡ option_map (parts_of (upto (history_at told self.now.end) at)) (unpacked_at (upto (history_at told self.now.end) at) tid))) }
        ensures reads { IfOk result (λ parts. IfSome (D.told disk.old)
            (λ told. CostsParts told self.now.end tid parts (D.counter disk.old).calls (D.counter disk.new).calls)) }
        ensures only_reads { OnlyReads D.Disk disk.old disk.new (IsErrOf result LoadRefusal.Disk) }
    {
        if at < tid {
            return Ok(None);
        }
        if tid <= self.floor.0 {
            return Ok(None);
        }
        match self.values_with(alloc, disk, tid)? {
            None => Ok(None),
            Some(values) => Ok(Some(self.parts_of(alloc, disk, values.as_slice(), tid)?)),
        }
    }
}
