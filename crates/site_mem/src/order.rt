/// The order in which the children of a site in memory end.
#[derive(Clone, Copy, Debug, PartialEq, Eq)]
pub enum Order {
    /// The child that was started first ends first.
    OldestFirst,
    /// The child that was started last ends first.
    NewestFirst,
}
