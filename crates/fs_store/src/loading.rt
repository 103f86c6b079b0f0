ghost use Rattle.std.specs.Prelude.{◌≡◌, ℕ, IfOk, IfSome, IsErrOf};
ghost use Rattle.zdisk.specs.Disk.{content};
ghost use Rattle.fs_record.specs.File.{value_at};
ghost use Rattle.fs_record.specs.Standing.{IsPlace};
ghost use Rattle.fs_scan.specs.Backs.{CostsBacks};
ghost use Rattle.fs_scan.specs.OnlyReads.{OnlyReads};
ghost use Rattle.fs_store.specs.Finding.{CostsLoad, HasHead};
ghost use Rattle.fs_store.specs.Fronts.{records_at};
ghost use Rattle.fs_store.specs.Knowing.{IsKnown};
ghost use Rattle.fs_store.specs.Recent.{AreRead};
ghost use Rattle.fs_store.specs.Seeing.{IsLoaded};

use crate::file::OpenFile;
use crate::recent::Recent;
use crate::{LoadRefusal, Loaded};
use fs_record::DataHead;
use fs_scan::{ScanRefusal, follow_from};
use std::alloc::Global;
use zbase::{Oid, Tid, Value};
use zdisk::Disk;

impl OpenFile {
    // The value that the record with this head means.
    fn value_of<D: Disk>(
        &self,
        alloc: Global,
        disk: &mut D,
        place: u64,
        head: &DataHead,
    ) -> Result<Value, LoadRefusal>
        requires known { IsKnown (D.told disk.old) self.now }
        requires head { IfSome (D.told disk.old) (λ told. HasHead (content told) place head.now) }
        ensures value { IfOk result (λ value. IfSome (D.told disk.old)
            (λ told. (oid : ℕ) → IsPlace (records_at told self.now.end) oid place → value ≡ value_at place (records_at told self.now.end))) }
        ensures reads { IfSome (D.told disk.old) (λ told. (oid : ℕ) → IsPlace (records_at told self.now.end) oid place
            → CostsBacks (content told) place (D.counter disk.old).calls (D.counter disk.new).calls) }
        ensures only_reads { OnlyReads D.Disk disk.old disk.new (IsErrOf result LoadRefusal.Disk) }
    {
        match follow_from(alloc, disk, self.len, place, head) {
            Ok(value) => Ok(value),
            Err(ScanRefusal::Disk) => Err(LoadRefusal::Disk),
            Err(ScanRefusal::Memory) => Err(LoadRefusal::Memory),
            Err(ScanRefusal::Damaged(_, _)) => unreachable!(),
        }
    }

    /// What an object was up to a transaction: at most two device calls for its newest record, and two more for each later
    /// record that is passed and for each back pointer that is followed.
    pub(crate) fn load<D: Disk>(
        &self,
        alloc: Global,
        disk: &mut D,
        oid: Oid,
        at: Tid,
    ) -> Result<Loaded, LoadRefusal>
        requires { IsKnown (D.told disk.old) self.now }
        ensures loaded { IfOk result (λ loaded. IfSome (D.told disk.old) (λ told. IsLoaded told self.now.end oid at loaded)) }
        ensures reads { IfSome (D.told disk.old) (λ told. CostsLoad told self.now.end oid at (D.counter disk.old).calls (D.counter disk.new).calls) }
        ensures only_reads { OnlyReads D.Disk disk.old disk.new (IsErrOf result LoadRefusal.Disk) }
    {
        match self.find(disk, oid, at)? {
            None => Ok(Loaded {
                value: None,
                serial: Tid(0),
                place: 0,
            }),
            Some(found) => {
                let value = self.value_of(alloc, disk, found.place, &found.head)?;
                Ok(Loaded {
                    value,
                    serial: found.head.tid,
                    place: found.place,
                })
            }
        }
    }

    /// What an object was up to a transaction, by no device call where its newest record is kept and isn't later, and else as
    /// `load` has it. That record is kept then.
    pub(crate) fn recall<D: Disk>(
        &self,
        alloc: Global,
        disk: &mut D,
        recent: &mut Recent,
        oid: Oid,
        at: Tid,
    ) -> Result<Loaded, LoadRefusal>
        requires known { IsKnown (D.told disk.old) self.now }
        requires read { AreRead (D.told disk.old) self.now.end recent.old }
        ensures loaded { IfOk result (λ loaded. IfSome (D.told disk.old) (λ told. IsLoaded told self.now.end oid at loaded)) }
        ensures reads { IfSome (D.told disk.old) (λ told. CostsLoad told self.now.end oid at (D.counter disk.old).calls (D.counter disk.new).calls) }
        ensures only_reads { OnlyReads D.Disk disk.old disk.new (IsErrOf result LoadRefusal.Disk) }
        ensures read { AreRead (D.told disk.new) self.now.end recent.new }
    {
        let place = self.place(oid);
        if let Some(loaded) = recent.get(oid, place, at)? {
            return Ok(loaded);
        }
        let loaded = self.load(alloc, disk, oid, at)?;
        // where there is no memory for it, it is read again
        let _ = recent.keep(oid, place, &loaded);
        Ok(loaded)
    }
}
