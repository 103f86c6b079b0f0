use zserve::ServePlan;

/// What is to be served, and where the tape is kept.
#[derive(Clone, Copy, Debug)]
pub struct FileJob<'a> {
    /// The name of the site's file.
    pub file: &'a str,
    /// The name of the tape, of which there is no file yet.
    pub record: &'a str,
    /// How it is served.
    pub plan: ServePlan,
}
