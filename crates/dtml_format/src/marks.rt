use zbase::Text;

/// How a text is shaped: the attributes of a `dtml-var`, in the order in which they apply.
///
/// Zope Book, appendix "DTML Reference", `var`.
#[derive(Debug, Drop)]
pub struct Marks {
    /// `&`, `<`, `>` and `"` become entities.
    pub html_quote: bool,
    /// Every byte but ASCII's letters and digits, `_`, `-`, `.` and `/` is percent-escaped.
    pub url_quote: bool,
    /// Every CR is dropped, and `<br />` is put before each LF.
    pub newline_to_br: bool,
    /// ASCII's letters become lower-case.
    pub lower: bool,
    /// ASCII's letters become upper-case.
    pub upper: bool,
    /// The first character becomes upper-case, where it is one of ASCII's letters.
    pub capitalize: bool,
    /// The greatest number of characters that aren't cut.
    pub size: Option<u32>,
    /// What stands behind a text that was cut; three dots where it is none.
    pub etc: Option<Text>,
}
