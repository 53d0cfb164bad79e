//! What is wrong with rows or a colouring.

/// What is wrong first with rows or a colouring.
#[derive(Clone, Copy, Debug, PartialEq, Eq)]
pub enum Wrong {
    /// Not one row for each side, or not one optional item for each joint.
    Count,
    /// The least primitive with a row that is out of its table.
    Row { primitive: usize },
    /// The least joint whose marks do not match.
    Joint { joint: usize },
    /// The least joint that lacks its item, has one without flow, or has an item that the giver's
    /// row does not give or the taker's row does not let in.
    Item { joint: usize },
}
