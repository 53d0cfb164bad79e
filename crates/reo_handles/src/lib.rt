//! Connectors behind handles: a circuit text in, a connector out, offers at its ports, rounds, and
//! what moved in them. Each call answers whether it was done, or why not.
#![tactic(auto)]

mod closing;
mod finding;
mod handle;
mod moving;
mod offering;
mod opening;
mod place;
mod rounds;
mod session;
mod status;
mod telling;
mod texts;

pub use closing::close;
pub use finding::find_open;
pub use handle::{Handle, nothing};
pub use moving::{item_open, moved_open};
pub use offering::{take_open, withdraw_open, write_open};
pub use opening::open;
pub use place::SessionPlace;
pub use rounds::{Round, round_open};
pub use session::Session;
pub use status::CallStatus;
pub use telling::lay_words;
