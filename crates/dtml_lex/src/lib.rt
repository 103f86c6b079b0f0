//! The parts of a DTML source: plain text, entities, opening and closing tags.
//!
//! DTML is Zope's Document Template Markup Language (Zope Book, "Basic DTML" and its appendix "DTML Reference").
//! `specs/Spelling` says how each part is spelled, `specs/Reading` which part stands at the front of a text, and
//! `specs/Source` what the parts of a whole source are.
#![tactic(auto)]

mod attributes;
mod bytes;
mod laws;
mod next;
mod part;
mod refusal;
mod tag;

pub use laws::{part_is_spelled, parts_make_the_source};
pub use next::next_part;
pub use part::{Attribute, Attributes, PartKind, SourcePart, TagName};
pub use refusal::DtmlRefusal;
