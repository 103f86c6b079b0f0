ghost use Rattle.std.specs.Prelude.{◌≡◌, ◌⊎◌, ◌++◌, ◌∷◌, [], List, ℕ, None, Some, IfOk, IfSome, IsErrOf, OnErr, OnOk, option_map};
ghost use Rattle.std.specs.Option.{ForSome};
ghost use Rattle.std.specs.declared.option.Option.{Option};
ghost use Rattle.zbase.specs.Faults.{Counter, Counts, IsFaultless};
ghost use Rattle.zdisk.specs.Crashes.{IsSynced};
ghost use Rattle.zdisk.specs.Disk.{synced};
ghost use Rattle.zio.specs.Shelves.{Entry, Holds, Lasts, Replaces, TakesBack, file_at};

use crate::ShelfRefusal;
use zbase::Memory;
use zdisk::Disk;

/// Where files stand under their names, as a folder of the system.
///
/// A disk that it hands out is given back by `close`: where the shelf tells, what was written on the disk is told from then
/// on. So a caller that knows no more of a shelf than this can't let go of a disk, and what it leaves in the files is told.
pub trait Shelf {
    type D: Disk;

    /// The files, where the shelf tells.
    ghost files: { Self → Option (List Entry) };

    /// How often the shelf has failed.
    ghost counter: { Self → Counter };

    /// No disk over a file of the shelf can fail.
    ghost sound_disks: { Self → Type 0 };

    /// A stop at any later moment leaves the file of that name as the shelf tells it, where it tells.
    ghost lasts: { Self → List ℕ → Type 0 };

    /// A disk over the file of that name.
    ///
    /// `Missing` comes exactly where the shelf, if it tells, has no such file, want of memory aside.
    fn open(&mut self, name: &str) -> Result<Self::D, ShelfRefusal>
        ensures found { IfOk result (λ disk. IfSome (files self.old) (λ all. Self.D.told disk ≡ option_map synced (file_at all name.now))) }
        ensures there { IfOk result (λ disk. IfSome (files self.old) (λ all. file_at all name.now ≡ None → ⊥)) }
        ensures missing { IsErrOf result ShelfRefusal.Missing → IfSome (files self.old) (λ all. file_at all name.now ≡ None) }
        ensures absent { IfSome (files self.old) (λ all. file_at all name.now ≡ None
            → IsErrOf result ShelfRefusal.Missing ⊎ IsErrOf result ShelfRefusal.Memory) }
        ensures sound { sound_disks self.old → IfOk result (λ disk. IsFaultless (Self.D.counter disk)) }
        ensures stays_sound { sound_disks self.old → sound_disks self.new }
        ensures opens { IsErrOf result ShelfRefusal.Exists → ⊥ }
        ensures same { files self.new ≡ files self.old }
        ensures lasting { Lasts (lasts self.old) (lasts self.new) }
        ensures counts { Counts (counter self.old) (counter self.new) (IsErrOf result ShelfRefusal.Failed) };

    /// A disk over a new file of that name, which is empty. The name stands behind a stop at any later moment. Until the
    /// disk is given back the shelf tells the file as it is handed out.
    ///
    /// `Exists` comes exactly where the shelf, if it tells, has a file of that name, want of memory aside.
    fn create(&mut self, name: &str) -> Result<Self::D, ShelfRefusal>
        ensures empty { IfOk result (λ disk. ForSome (Self.D.told disk) (λ told. told ≡ synced [])) }
        ensures told { IfOk result (λ disk. IfSome (files self.old) (λ _. Self.D.told disk ≡ Some (synced []))) }
        ensures new { OnOk result (IfSome (files self.old) (λ all. file_at all name.now ≡ None)) }
        ensures made { OnOk result (files self.new ≡ option_map (λ all. all ++ (name.now, []) ∷ []) (files self.old)) }
        ensures exists { IsErrOf result ShelfRefusal.Exists → IfSome (files self.old) (λ all. file_at all name.now ≡ None → ⊥) }
        ensures present { IfSome (files self.old) (λ all. (file_at all name.now ≡ None → ⊥)
            → IsErrOf result ShelfRefusal.Exists ⊎ IsErrOf result ShelfRefusal.Memory) }
        ensures creates { IsErrOf result ShelfRefusal.Missing → ⊥ }
        ensures kept { OnErr result (files self.new ≡ files self.old) }
        ensures lasting { Lasts (lasts self.old) (lasts self.new) }
        ensures sound { sound_disks self.old → IfOk result (λ disk. IsFaultless (Self.D.counter disk)) }
        ensures stays_sound { sound_disks self.old → sound_disks self.new }
        ensures counts { Counts (counter self.old) (counter self.new) (IsErrOf result ShelfRefusal.Failed) };

    /// Takes back a disk over the file of that name, for which it was handed out. Where the shelf tells, the file has from
    /// then on the bytes that the disk reads; for want of memory it tells what it told. The file lasts where all of the disk is
    /// synced, or where the disk was only read and it lasted before.
    fn close(&mut self, name: &str, disk: Self::D) -> Result<(), Memory>
        ensures closed { OnOk result (TakesBack (files self.old) name.now (Self.D.told disk) (files self.new)) }
        ensures kept { OnErr result (files self.new ≡ files self.old) }
        ensures lasting { OnOk result (IfSome (Self.D.told disk) IsSynced → lasts self.new name.now × Lasts (lasts self.old) (lasts self.new)) }
        ensures unwritten { IfSome (files self.old) (λ all. Holds all name.now (Self.D.told disk)) → Lasts (lasts self.old) (lasts self.new) }
        ensures others { (other : List ℕ) → (other ≡ name.now → ⊥) → lasts self.old other → lasts self.new other }
        ensures stays_sound { sound_disks self.old → sound_disks self.new }
        ensures uncounted { counter self.new ≡ counter self.old };

    /// Puts the one file whole in the place of the other, whether or not there is such a one; from then on there is none
    /// under its own name. A stop leaves the place as it was, or with the new file, and a stop at any later moment leaves
    /// it so. Whatever the answer, each file of another name that lasted before lasts still.
    ///
    /// `Missing` comes exactly where the shelf, if it tells, has no such new file, want of memory aside.
    fn replace(&mut self, new: &str, main: &str) -> Result<(), ShelfRefusal>
        ensures replaced { OnOk result (Replaces (files self.old) new.now main.now (files self.new)) }
        ensures missing { IsErrOf result ShelfRefusal.Missing → IfSome (files self.old) (λ all. file_at all new.now ≡ None) }
        ensures absent { IfSome (files self.old) (λ all. file_at all new.now ≡ None
            → IsErrOf result ShelfRefusal.Missing ⊎ IsErrOf result ShelfRefusal.Memory) }
        ensures replaces { IsErrOf result ShelfRefusal.Exists → ⊥ }
        ensures kept { OnErr result (files self.new ≡ files self.old) }
        ensures lasting { OnOk result (lasts self.old new.now → lasts self.new main.now × Lasts (lasts self.old) (lasts self.new)) }
        ensures others { (other : List ℕ) → (other ≡ new.now → ⊥) → (other ≡ main.now → ⊥) → lasts self.old other → lasts self.new other }
        ensures stays_sound { sound_disks self.old → sound_disks self.new }
        ensures counts { Counts (counter self.old) (counter self.new) (IsErrOf result ShelfRefusal.Failed) };
}
