use crate::asking::{put_acting, put_allowed, put_asked, put_given, put_had, put_judge};
use case_sites::{Asking, answers};
use cases::{Case, CasesRefusal, Part, Runner};
use std::alloc::Global;
use zknown::Known;

/// Who may do what in a small site.
///
/// `site` is what is known of it, as `case_sites` says. And what is asked; a USER is `anonymous`, or
/// `NAME:HOME:ROLE,ROLE`, whose name may be empty.
///
/// - `given PERMISSION ID`: `roles ROLE ..` comes of it, the roles to which the permission is given there;
/// - `has USER ID`: `had ROLE ..` comes of it, the roles of the user there;
/// - `least ROLE,ROLE ROLE ..`: `place NUMBER` comes of it, or `place none`: where the least common role of the user's,
///   which have commas, and of those given stands among the second;
/// - `judge PERMISSION ID USER`: `verdict granted ROLE` comes of it, or `verdict denied PERMISSION`;
/// - `acts ID`: `acting NAME HOME ROLE ..` comes of it, without a name, or `acting user`: who acts in the source of the
///   object;
/// - `request PERMISSION ID NAME PASSWORD`, or without the last two: `user NAME HOME ROLE .. : VERDICT` comes of it, or
///   `user anonymous : VERDICT`, with what the user is granted on the object.
///
/// In place of an answer stands why there is none: `need ID`, `broken ID`, `deep`.
#[derive(Drop)]
pub struct PermissionCases;

impl Asking for PermissionCases {
    fn asks(&self, key: &str) -> bool {
        ["given", "has", "least", "judge", "acts", "request"].contains(&key)
    }

    fn answer(&self, alloc: Global, known: &Known, part: &Part) -> Result<String, CasesRefusal> {
        let mut line = String::new(alloc);
        match part.key() {
            "given" => put_given(alloc, known, part, &mut line)?,
            "has" => put_had(alloc, known, part, &mut line)?,
            "least" => put_allowed(alloc, part, &mut line)?,
            "judge" => put_judge(alloc, known, part, &mut line)?,
            "acts" => put_acting(alloc, known, part, &mut line)?,
            _ => put_asked(alloc, known, part, &mut line)?,
        }
        Ok(line)
    }
}

impl Runner for PermissionCases {
    fn knows(&self, key: &str) -> bool {
        key == "site" || self.asks(key)
    }

    fn run(&self, alloc: Global, case: &Case) -> Result<Vec<Part>, CasesRefusal> {
        answers(alloc, self, case)
    }
}
