// A link as it stands at a site: its mark, the site at its far end, and its weight.
#[derive(Clone, Copy, Debug, PartialEq, Eq)]
pub struct Link<W> {
    pub mark: u32,
    pub far: u32,
    pub weight: W,
}
