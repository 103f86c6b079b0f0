ghost use Rattle.std.specs.Prelude.{ℕ, Some};
ghost use Rattle.zbase.specs.History.{IsPrefixOf};
ghost use Rattle.zdisk.specs.Disk.{Told, content};
ghost use Rattle.fs_record.specs.declared.damage.Damage.{Damage as Kind};
ghost use Rattle.fs_store.specs.Moments.{OpensAsKnown};
ghost use Rattle.fs_store.specs.Opened.{IsRefusedFor, Opens};
ghost use Rattle.fs_store.specs.StaleLaws.{MaySettle};
ghost use Rattle.fs_store.specs.Stores.{Settles, StoreView};
ghost use Rattle.fs_store.specs.declared.opening.OpenRefusal.{OpenRefusal};

/// A stop left one of the images of a store's disk, and a store was opened over it: its history and its end are those that
/// were known, or those with the undecided transaction. No damage is met there, and no file that is too long. A store that
/// settles has a history of which the one before is a prefix.
pub fn stopped_settles()
    ensures settles { (lost new : StoreView) (told : Told) (limit : ℕ) → OpensAsKnown lost (content told) → Opens (Some told) limit new
        → MaySettle lost new.history new.end }
    ensures undamaged { (lost : StoreView) (told : Told) (kind : Kind) (place : ℕ) → OpensAsKnown lost (content told)
        → IsRefusedFor (Some told) (OpenRefusal.Damaged kind place) → ⊥ }
    ensures fits { (lost : StoreView) (told : Told) (long : ℕ) → OpensAsKnown lost (content told) → IsRefusedFor (Some told) (OpenRefusal.TooLong long) → ⊥ }
    ensures prefix { (old new : StoreView) → Settles old new → IsPrefixOf old.history new.history }
{}
