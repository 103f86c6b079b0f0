/// The most bytes of a head.
pub(crate) const MOST_HEAD: usize = 16_384;

/// The most header lines.
pub(crate) const MOST_LINES: usize = 64;

/// The most bytes of a target.
pub(crate) const MOST_TARGET: usize = 8192;

/// The most segments of a path.
pub(crate) const MOST_SEGMENTS: usize = 64;

/// The most bytes of a body.
pub(crate) const MOST_BODY: usize = 1_048_576;
