/// The places of a destination and of the relationship that leads to it.
#[derive(Clone, Copy, Debug, PartialEq, Eq)]
pub(crate) struct PlainTarget {
    pub destination: usize,
    pub relation: usize,
}
