//! A new site: its objects, and the file that holds them.
//!
//! `specs/NewSite` has the objects and the file to the byte, `specs/Begun` what a stop may leave of it while it is made.
#![tactic(auto)]

mod laws;
mod making;
mod objects;

pub use laws::new_sites_open;
pub use making::{MakeRefusal, make_site, site_bytes};
