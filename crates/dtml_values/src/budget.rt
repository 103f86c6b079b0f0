/// What is left to a page.
#[derive(Clone, Copy, Debug, PartialEq, Eq)]
pub struct Budget {
    /// How many tags may still be evaluated.
    pub tags: u32,
    /// How many renderings may still begin inside the present one.
    pub renders: u32,
    /// How many bytes of text may still be made.
    pub output: u32,
}
