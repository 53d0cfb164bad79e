//! What a search comes to.

/// What a search by marks comes to.
#[derive(Clone, Copy, Debug, PartialEq, Eq)]
pub enum MarkFinding {
    /// The rows of the first assignment, none of which jams.
    Rows,
    /// The rows of the first assignment, all of which jam: nothing does without.
    Jam,
    /// Nothing: some side has a table of no form or does not let every item in, or what was taken
    /// first left nothing at a later place.
    Unknown,
}
