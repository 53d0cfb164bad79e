//! What stands in the labels of pictures: texts that end no label, items whose type is not at hand,
//! and expressions.

mod escape;
mod expr;
mod item;
mod laws;

pub use escape::append_label;
pub use expr::append_expr;
pub use item::append_item;
pub use laws::labels_stay_shut;
