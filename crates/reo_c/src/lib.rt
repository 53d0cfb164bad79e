//! The engine for programs in C: a circuit text in, a connector out, offers at its ports, rounds,
//! and what moved in them.
#![tactic(auto)]

mod calls;
