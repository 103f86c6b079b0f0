use crate::records::{put_cuts, put_flips, put_record};
use cases::{Case, CasesRefusal, Part, Runner, add_bytes};
use std::alloc::Global;

/// Records of objects.
///
/// - `record` is read: `object` comes of it, with the object's fields one a line, and `again` with the record of the
///   second version that is written of it; or `bad PLACE`, where no object has that record.
/// - `cut` is a record: `places` comes of it, with a line for each of its fronts, from none of its bytes to all but one.
/// - `flip NUMBER` is a record: `flipped` comes of it, with a line for each of its bytes, of the record in which that byte
///   is another by exclusive or with the number.
///
/// Such a line is the place, in decimal, where no object has that record; else `same`, where it is the one that is written
/// of the object, or that one in hexadecimal behind an equals sign.
#[derive(Drop)]
pub struct ObjectCases;

impl Runner for ObjectCases {
    fn knows(&self, key: &str) -> bool {
        key == "record" || key == "cut" || key == "flip"
    }

    fn run(&self, alloc: Global, case: &Case) -> Result<Vec<Part>, CasesRefusal> {
        let mut parts = Vec::new(alloc);
        for part in &case.parts {
            match part.key() {
                "record" => put_record(alloc, part, &mut parts)?,
                "cut" => add_bytes(alloc, &mut parts, "places", put_cuts(alloc, part)?)?,
                "flip" => add_bytes(alloc, &mut parts, "flipped", put_flips(alloc, part)?)?,
                _ => {}
            }
        }
        Ok(parts)
    }
}
