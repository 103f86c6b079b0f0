//! To which objects the objects of a site lead, by their records: what a pack of a site's file goes along.
//!
//! `specs/Linked` has what a record leads to.
#![tactic(auto)]

mod links;

pub use links::SiteLinks;
