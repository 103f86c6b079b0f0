//! The fields of a request's forms, and its cookies.
//!
//! `specs/Fields` says which fields a request has: the pairs of its query and of the form in its body (URL Standard,
//! "application/x-www-form-urlencoded"), by the suffixes of their names (Zope Book, "Variables and Advanced DTML").
//! `specs/Cookies` says which cookies it has (RFC 6265), and `specs/Firsts` what comes first.
#![tactic(auto)]

mod cookie;
mod field;
mod grouping;
mod headers;
mod names;
mod numbers;
mod pairs;
mod places;
mod reading;
mod rows;

pub use cookie::cookies;
pub use field::{Field, FieldRefusal, FieldValue, Fields, Scalar, Scalars};
pub use numbers::whole_number;
pub use reading::fields;
