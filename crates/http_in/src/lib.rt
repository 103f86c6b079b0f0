//! Messages of HTTP/1, read from a connection in any pieces.
//!
//! `specs/Messages` says which message bytes begin with: a request or what is refused of one, by its head
//! (`specs/Ends` and `specs/HeadText`, RFC 9112), its path (`specs/Paths`, RFC 3986) and its headers
//! (`specs/Headers`, RFC 9110).
#![tactic(auto)]

mod ends;
mod head;
mod headers;
mod laws;
mod limits;
mod look;
mod message;
mod path;
mod placed;
mod reader;
mod refusal;
mod taking;

pub use laws::{any_cutting, one_connection, one_message_alone, paths_are_short};
pub use message::{HttpRefusal, Message, Request, Segments, Verb};
pub use placed::Headers;
pub use reader::Reader;
pub use taking::take_message;
