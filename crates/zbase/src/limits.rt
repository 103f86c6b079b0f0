/// The greatest length of a source in bytes: what an object may have, what is read as a template, and what a form may
/// give.
pub const MOST_SOURCE: usize = 262_144;
