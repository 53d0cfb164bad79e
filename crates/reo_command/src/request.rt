//! Requests: what words ask of a command, with the names of its files, its amounts and its options.
ghost use Rattle.std.specs.Prelude.{◌≡◌, [], ◌∷◌, IfSome, MatchOption, length};
ghost use Rattle.reo_command.specs.Commands.{command_of};
ghost use Rattle.reo_command.specs.Requests.{IsRequest, IsWithin};

use crate::amount::size_of;
use crate::command::{Command, command_of, names_of};
use crate::limit::{budget_of, limits_of};
use reo_runner::Limits;
use reo_values::Bytes;

/// What words ask of a command: with the names of its files in order, and the numbers that the
/// words say.
#[derive(Clone, Copy, Debug, PartialEq, Eq)]
pub enum Request<'a> {
    /// The trace of the script on the circuit, within these limits.
    Run {
        circuit: &'a [u8],
        script: &'a [u8],
        limits: Limits,
    },
    /// The parts of the circuit.
    Check {
        circuit: &'a [u8],
    },
    /// The canonical text of the circuit, of its own version.
    Print {
        circuit: &'a [u8],
    },
    /// The canonical text of the circuit as one of version 2.
    Upgrade {
        circuit: &'a [u8],
    },
    /// The verdict on the trace.
    Verify {
        circuit: &'a [u8],
        script: &'a [u8],
        trace: &'a [u8],
    },
    /// What comes of made work of this size, 1 to 256.
    Bench {
        size: u32,
    },
    /// The answers to the events of the source on the circuit, within this budget: 1 to 10^9.
    Live {
        circuit: &'a [u8],
        budget: u64,
    },
    /// The boundary tables of the circuit.
    Tables {
        circuit: &'a [u8],
    },
    /// The trace of the script on the circuit, with a log behind each round.
    Prove {
        circuit: &'a [u8],
        script: &'a [u8],
    },
    /// The verdict on the proof text.
    VerifyProof {
        circuit: &'a [u8],
        script: &'a [u8],
        proof: &'a [u8],
    },
}

/// The name where there is one.
fn one_name(names: &[Bytes]) -> &[u8]
    requires { length names.now ≡ 1 }
    ensures { names.now ≡ result.now ∷ [] }
{
    match names {
        [circuit] => circuit.as_slice(),
        _ => b"",
    }
}

/// The names where there are two.
fn two_names(names: &[Bytes]) -> (&[u8], &[u8])
    requires { length names.now ≡ 2 }
    ensures { names.now ≡ result.0.now ∷ result.1.now ∷ [] }
{
    match names {
        [circuit, script] => (circuit.as_slice(), script.as_slice()),
        _ => (b"", b""),
    }
}

/// The names where there are three.
fn three_names(names: &[Bytes]) -> (&[u8], &[u8], &[u8])
    requires { length names.now ≡ 3 }
    ensures { names.now ≡ result.0.now ∷ result.1.now ∷ result.2.now ∷ [] }
{
    match names {
        [circuit, script, third] => (circuit.as_slice(), script.as_slice(), third.as_slice()),
        _ => (b"", b"", b""),
    }
}

/// What words ask that are those of a command.
fn asked(command: Command, words: &[Bytes]) -> Request<'_>
    requires { command_of words.now ≡ Some command }
    ensures exact { IsRequest words.now result }
    ensures within { IsWithin result }
{
    let names = names_of(command, words);
    match command {
        Command::Run => {
            let (circuit, script) = two_names(names);
            let limits = limits_of(words);
            Request::Run {
                circuit,
                script,
                limits,
            }
        }
        Command::Check => Request::Check {
            circuit: one_name(names),
        },
        Command::Print => Request::Print {
            circuit: one_name(names),
        },
        Command::Upgrade => Request::Upgrade {
            circuit: one_name(names),
        },
        Command::Verify => {
            let (circuit, script, trace) = three_names(names);
            Request::Verify {
                circuit,
                script,
                trace,
            }
        }
        Command::Bench => Request::Bench {
            size: size_of(words),
        },
        Command::Live => Request::Live {
            circuit: one_name(names),
            budget: budget_of(words),
        },
        Command::Tables => Request::Tables {
            circuit: one_name(names),
        },
        Command::Prove => {
            let (circuit, script) = two_names(names);
            Request::Prove { circuit, script }
        }
        Command::VerifyProof => {
            let (circuit, script, proof) = three_names(names);
            Request::VerifyProof {
                circuit,
                script,
                proof,
            }
        }
    }
}

/// What these words ask: `None` exactly where they have no form.
pub fn request_of(words: &[Bytes]) -> Option<Request<'_>>
    ensures exact { MatchOption result (command_of words.now ≡ None) (IsRequest words.now) }
    ensures within { IfSome result IsWithin }
{
    match command_of(words) {
        Some(command) => Some(asked(command, words)),
        None => None,
    }
}
