use crate::reaching::{put_containers, put_found, put_leads, put_order};
use case_sites::{Asking, answers};
use cases::{Case, CasesRefusal, Part, Runner};
use std::alloc::Global;
use zknown::Known;

/// What is found in a small site.
///
/// `site` is what is known of it, as `case_sites` says. And what is asked:
///
/// - `publish /PATH`: `leads page OBJECT.. client OBJECT..` comes of it, with both wrappers, or `leads call NAME OBJECT..`;
/// - `chain ID`: `containers` comes of it, with the object and its containers;
/// - `reach ID ..`: `order` comes of it, with the wrapper of these objects, each reached through the one before it, from
///   the root on;
/// - `find NAME ID ..`: `found` comes of it, with the wrapper of what that wrapper finds, or `found none`.
///
/// In place of objects stands why there are none: `need ID`, `broken ID`, `deep`, and of a path `missing SEGMENT`.
#[derive(Drop)]
pub struct TraverseCases;

impl Asking for TraverseCases {
    fn asks(&self, key: &str) -> bool {
        ["publish", "chain", "reach", "find"].contains(&key)
    }

    fn answer(&self, alloc: Global, known: &Known, part: &Part) -> Result<String, CasesRefusal> {
        let mut line = String::new(alloc);
        match part.key() {
            "publish" => put_leads(alloc, known, part, &mut line)?,
            "chain" => put_containers(alloc, known, part, &mut line)?,
            "reach" => put_order(alloc, known, part, &mut line)?,
            _ => put_found(alloc, known, part, &mut line)?,
        }
        Ok(line)
    }
}

impl Runner for TraverseCases {
    fn knows(&self, key: &str) -> bool {
        key == "site" || self.asks(key)
    }

    fn run(&self, alloc: Global, case: &Case) -> Result<Vec<Part>, CasesRefusal> {
        answers(alloc, self, case)
    }
}
