//! Scripts: what is written, the grammar, the rules on the ports of a circuit, and what a text is
//! answered.

mod action;
mod event;
mod fault;
mod forms;
mod language;
mod laws;

pub use action::{Action, Component, Script};
pub use event::{Event, EventFault, EventForm};
pub use fault::ScriptFault;
pub use forms::{ActionForm, ComponentForm};
pub use language::{Events, Scripts};
pub use laws::{
    circuits_are_read_alike, circuits_say_alike, each_line_is_answered, each_script_is_answered,
};
