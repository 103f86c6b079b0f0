//! Replies as the bytes that a server sends.
//!
//! `specs/Replies` says which bytes a reply is: the head of HTTP/1.1, with the transaction that the reply goes with,
//! and the body (RFC 9112, "Message Format"; RFC 9110, "Status Codes").
#![tactic(auto)]

mod reply;

pub use reply::reply_bytes;
