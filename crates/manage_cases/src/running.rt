use crate::asking::{put_change, put_name, put_need};
use crate::knowing::known_of;
use crate::listing::put_log;
use cases::{Case, CasesRefusal, Part, Runner};
use std::alloc::Global;

/// What calls of management are, need and change.
///
/// What is known of a site's objects, by their ids in decimal: `object ID`, whose record is below it; `absent ID`, which has
/// no value; `unreadable ID`, whose value is no record. And what is asked:
///
/// - `name NAME`: `call NAME` comes of it, with the name of the call that it names, or `call none`;
/// - `need NAME METHOD ID`: `permission NUMBER` comes of it, with the permission that the call needs on the object, or
///   `permission WHY`;
/// - `change NAME ID`, with a form in the lines below: `written ID` comes of it, with the record that is written of that
///   object, and behind it `hole PLACE NUMBER` for each place where the id of a new object is to stand; and `made NUMBER`,
///   with the record of that new object; or `undoes TID`, with the id in decimal, or `lists`; or `refused WHY`;
/// - `log`: `page` comes of it, with the page of a log whose rows are those of the parts `row TID USER`, oldest first, with
///   the description below each; the empty name is left out.
///
/// WHY is `need ID`, `broken ID`, `not-found NAME`, `missing FIELD`, `bad-field FIELD`, `too-long FIELD`,
/// `no-such-id ID`, `taken NAME`, `too-many`, `too-deep`, or `bad-source KIND PLACE` with the number of the kind.
#[derive(Drop)]
pub struct ManageCases;

impl Runner for ManageCases {
    fn knows(&self, key: &str) -> bool {
        [
            "object",
            "absent",
            "unreadable",
            "name",
            "need",
            "change",
            "row",
            "log",
        ]
        .contains(&key)
    }

    fn run(&self, alloc: Global, case: &Case) -> Result<Vec<Part>, CasesRefusal> {
        let known = known_of(alloc, case)?;
        let mut parts = Vec::new(alloc);
        for part in &case.parts {
            match part.key() {
                "name" => put_name(alloc, part, &mut parts)?,
                "need" => put_need(alloc, &known, part, &mut parts)?,
                "change" => put_change(alloc, &known, part, &mut parts)?,
                "log" => put_log(alloc, case, &mut parts)?,
                _ => {}
            }
        }
        Ok(parts)
    }
}
