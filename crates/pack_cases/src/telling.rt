use cases::CasesRefusal;
use fs_pack::{PackRefusal, Packed};
use std::alloc::Global;

/// Why a pack was refused: `damaged KIND PLACE`, which disk failed (`from` or `to`), `unreadable HEX` or `full NEED LIMIT`.
pub fn refusal_words(alloc: Global, refusal: PackRefusal) -> Result<String, CasesRefusal> {
    match refusal {
        PackRefusal::Damaged(kind, place) => {
            let kind = kind.number();
            Ok(format!(in alloc; "damaged {kind} {place}")?)
        }
        PackRefusal::From => Ok(String::from_str(alloc, "from")?),
        PackRefusal::To => Ok(String::from_str(alloc, "to")?),
        PackRefusal::Unreadable(oid) => {
            let oid = oid.0;
            Ok(format!(in alloc; "unreadable {oid:016x}")?)
        }
        PackRefusal::Full { need, limit } => Ok(format!(in alloc; "full {need} {limit}")?),
        PackRefusal::Memory => Err(CasesRefusal::Memory),
    }
}

/// What a packed file has: `end N floor HEX transactions N`.
pub fn packed_words(alloc: Global, packed: Packed) -> Result<String, CasesRefusal> {
    let (end, floor, count) = (packed.end, packed.floor.0, packed.count);
    Ok(format!(in alloc; "end {end} floor {floor:016x} transactions {count}")?)
}
