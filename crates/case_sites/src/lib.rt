//! The small sites of cases: what the parts of a case say of objects, as the drivers of several layers read it.
//!
//! `site` is what is known of a site, an object a line, by its id and its parent's, both in decimal, and what further lines
//! say of an object that has a line of its own:
//!
//! - `folder ID PARENT NAME=ID ..`, with its children; `method ID PARENT`, `document ID PARENT`;
//!   `users ID PARENT NAME:PASSWORD:ROLE,ROLE ..`, a user folder;
//! - `absent ID`, which has no value; `unreadable ID`, whose value is no record;
//! - `id ID NAME`, `title ID WORD ..`; `property ID NAME line WORD ..`, `.. int NUMBER` or `.. lines WORD ..`;
//! - `alone ID PERMISSION ROLE ..` and `acquired ID PERMISSION ROLE ..`, its settings, by the numbers of permissions;
//!   `local ID USER ROLE ..`, its local roles; `proxy ID ROLE ..`, its proxy roles.
//!
//! `source ID` has the source of a method or a document in the lines below it.
#![tactic(auto)]

mod asking;
mod objects;
mod rows;
mod sites;
mod words;
mod wrappers;

pub use asking::{Asking, answers};
pub use sites::{known_of, known_of_these};
pub use words::{
    bytes_text, oid_in, permission_at, roles_in, split_named, split_three, texts_from, word_at,
};
pub use wrappers::{put_objects, put_refusal, reached};
