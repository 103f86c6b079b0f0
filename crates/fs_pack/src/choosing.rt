ghost use Rattle.std.specs.Prelude.{◌≡◌, IfOk, drop};
ghost use Rattle.fs_pack.specs.Chosen.{picked};
ghost use Rattle.fs_scan.specs.Wholes.{records_in};

use fs_scan::OidValues;
use zbase::Memory;

/// Of a transaction's records, of which the first has this number, those with a set mark.
pub(crate) fn picked(marks: &[bool], number: usize, values: OidValues) -> Result<OidValues, Memory>
    ensures { IfOk result (λ stay. records_in stay ≡ picked (drop number marks.now) (records_in values)) }
{
    let mut stay = OidValues::new(values.alloc());
    let mut number = number;
    for value in values.into_vec() {
        if number < marks.len() && marks[number] {
            stay.push(value)?;
        }
        number = number.saturating_add(1);
    }
    Ok(stay)
}
