//! Reading script texts and event lines. The trees of scripts, and the faults of their texts, are
//! given on.
#![tactic(auto)]

mod actions;
mod depth;
mod events;
mod judging;
mod lines;
mod making;
mod places;
mod reading;
mod script;
mod scripts;
mod sharing;
mod texts;

pub use lines::read_event;
pub use script::read_script;
pub use scripts::{
    Action, ActionForm, Component, ComponentForm, Event, EventFault, EventForm, Events, Script,
    ScriptFault, Scripts, circuits_are_read_alike, circuits_say_alike, each_line_is_answered,
    each_script_is_answered,
};
