use l4_fpage::Rights;

/// A region to delegate: the `count` pages from `source` go to the pages from `target`, with these rights (this
/// profile's own). Any numbers are allowed: a region can be empty, or lie beyond the end of the space.
#[derive(Clone, Copy, PartialEq, Eq, Debug)]
pub struct Region {
    pub source: u32,
    pub target: u32,
    pub count: u32,
    pub rights: Rights,
}
