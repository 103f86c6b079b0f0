use zbase::Memory;

/// Why a template can't be read, with the place of the tag that is refused: a number of bytes from the start of
/// the source. Where several apply to one tag, the one that stands first here is given, but for want of memory,
/// which may come in place of any.
#[derive(Clone, Copy, Debug, PartialEq, Eq)]
pub enum DtmlRefusal {
    /// Want of memory. Nothing was kept.
    Memory,
    /// An unknown tag name, a tag without its `>`, or one whose attributes fit no form.
    BadTag(usize),
    /// A tag that is still open at the end of the source: the innermost one.
    Unclosed(usize),
    /// A closing tag, `elif` or `else` that doesn't belong to the innermost open tag.
    Stray(usize),
    /// An attribute that its tag doesn't have, that stands twice, that lacks a value or has one wrongly, or a
    /// missing argument.
    BadAttribute(usize),
    /// An expression that fits no rule.
    BadExpression(usize),
    /// A source longer than the greatest length, which is told in place of a place.
    TooLarge(usize),
    /// A tag whose block would be the 65th inside one another.
    TooDeep(usize),
}

impl From<Memory> for DtmlRefusal {
    ghost use Rattle.std.specs.Prelude.{◌≡◌};
    ghost use Rattle.dtml_lex.specs.declared.refusal.DtmlRefusal.TheVariants as refusal;

    ghost from_gives = { λ _ e. e ≡ refusal.Memory };

    fn from(_: Memory) -> DtmlRefusal {
        DtmlRefusal::Memory
    }
}
