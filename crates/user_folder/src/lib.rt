//! Who a request comes from: the credentials that it carries, what is kept of a password, and the user that both name.
//!
//! `specs/Credentials` says what a header of the scheme Basic carries (RFC 7617), `specs/Users` what is kept of a
//! password and which user of a list is the one (Zope Book, "Users and Security").
#![tactic(auto)]

mod basic;
mod users;

pub use basic::{HeaderRefusal, credentials};
pub use users::{authenticate, keep, kept_passwords_are_lawful};
