use zbase::Clash;

/// The conflicts that a request has had so far, from the first. At the fourth it is given up.
#[derive(Clone, Copy, Debug, PartialEq, Eq)]
pub enum Conflicts {
    None,
    One(Clash),
    Two(Clash, Clash),
    Three(Clash, Clash, Clash),
}
