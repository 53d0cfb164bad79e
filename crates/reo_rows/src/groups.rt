//! What is noted of the groups of a side.
/// Two rows of a group that have their flags: one of them, and another that is apart at another
/// end.
#[derive(Clone, Copy, Debug, PartialEq, Eq)]
pub struct Group {
    pub first: Option<usize>,
    pub other: Option<usize>,
}

/// Where the mark that a group has is that of no value: nowhere, at one end alone, or at several.
#[derive(Clone, Copy, Debug, PartialEq, Eq)]
pub enum Odd {
    Nowhere,
    At(usize),
    Several,
}
