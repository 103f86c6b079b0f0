ghost use Rattle.std.specs.Prelude.{◌≡◌, ◌≤◌, ◌+◌, IfOk, IfSome, IsErrOf, length};
ghost use Rattle.fs_scan.specs.OnlyReads.{OnlyReads};
ghost use Rattle.fs_store.specs.Fronts.{file_at};
ghost use Rattle.fs_store.specs.Knowing.{IsKnown};

use crate::LoadRefusal;
use crate::file::OpenFile;
use std::alloc::Global;
use zbase::Bytes;
use zdisk::Disk;

impl OpenFile {
    /// All bytes of the file, by one device call.
    pub(crate) fn bytes<D: Disk>(&self, alloc: Global, disk: &mut D) -> Result<Bytes, LoadRefusal>
        requires { IsKnown (D.told disk.old) self.now }
        ensures bytes { IfOk result (λ bytes. IfSome (D.told disk.old) (λ told. bytes ≡ file_at told self.now.end)) }
        ensures long { IfOk result (λ bytes. length bytes ≡ self.now.end) }
        ensures reads { (D.counter disk.new).calls ≤ (D.counter disk.old).calls + 1 }
        ensures only_reads { OnlyReads D.Disk disk.old disk.new (IsErrOf result LoadRefusal.Disk) }
    {
        let mut bytes = vec![in alloc; 0u8; self.end as usize]?;
        disk.read_at(0, &mut bytes)?;
        Ok(Bytes::from_vec(bytes))
    }
}
