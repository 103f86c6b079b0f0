ghost use Rattle.std.specs.Prelude.{◌≡◌, ◌<◌, ◌^◌, ◌-◌, ◌∷◌, [], length, IfOk};
ghost use Rattle.zobject.specs.Rules.{IsObject};
ghost use Rattle.zobject.specs.declared.version.Version.TheVariants.{Second};
ghost use Rattle.zcodec.specs.Record.{record_text};
ghost use Rattle.evaluator.specs.declared.draft.Entry.TheVariants as entries;
ghost use Rattle.evaluator.specs.declared.draft.Name.TheVariants as names;
ghost use Rattle.manage.specs.Written.{change_of, entry_of, whole};

use crate::changes::Change;
use evaluator::{Entries, Entry, Hole, Holes, Name};
use std::alloc::Global;
use zbase::{Bytes, Memory, Oid};
use zcodec::encode;
use zobject::Object;

/// An object in whose record no new object stands.
pub(crate) fn write(alloc: Global, name: Name, object: &Object) -> Result<Entry, Memory>
    requires lawful { IsObject object.now }
    ensures { IfOk result (λ entry. entry ≡ entry_of (whole name object.now)) }
{
    Ok(Entry::Write {
        name,
        bytes: encode(alloc, object)?,
        holes: Holes::new(alloc),
    })
}

/// The number of an id has 64 bits. Takes nothing.
pub(crate) fn fits(number: u64)
    ensures { number < 2 ^ 64 }
{}

// The last eight bytes of a record, which hold an id. A place that doesn't fit 32 bits is told as want of memory: such a
// record has more than 4 GiB.
fn last_id(bytes: &Bytes) -> Result<Hole, Memory>
    ensures { IfOk result (λ hole. hole ≡ record { at = length bytes.now - 8; new = 0 }) }
{
    match u32::try_from(bytes.len().saturating_sub(8)) {
        Ok(at) => Ok(Hole { at, new: 0 }),
        Err(_) => Err(Memory),
    }
}

/// A folder whose last child is the first new object.
pub(crate) fn write_grown(alloc: Global, oid: Oid, folder: &Object) -> Result<Entry, Memory>
    requires lawful { IsObject folder.now }
    ensures { IfOk result (λ entry. entry ≡ entries.Write (names.Old oid) (record_text Second folder.now)
        (record { at = length (record_text Second folder.now) - 8; new = 0 } ∷ [])) }
{
    let bytes = encode(alloc, folder)?;
    let mut holes = Holes::new(alloc);
    holes.push(last_id(&bytes)?)?;
    Ok(Entry::Write {
        name: Name::Old(oid),
        bytes,
        holes,
    })
}

/// The object's record, and nothing else.
pub(crate) fn write_itself(alloc: Global, oid: Oid, object: &Object) -> Result<Change, Memory>
    requires lawful { IsObject object.now }
    ensures { IfOk result (λ change. change ≡ change_of (whole (names.Old oid) object.now ∷ [])) }
{
    let mut entries = Entries::new(alloc);
    entries.push(write(alloc, Name::Old(oid), object)?)?;
    Ok(Change { entries })
}
