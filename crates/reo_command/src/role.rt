//! What a file is to a command.
ghost use Rattle.std.specs.Prelude.{◌≡◌, ◌<◌, ◌^◌};
ghost use Rattle.reo_command.specs.Roles.{role_text, refused_text, most_bytes, refused_status};

use crate::status::{CIRCUIT_REFUSED, PROOF_REFUSED, SCRIPT_REFUSED, TRACE_REFUSED};

/// What a file is to a command.
#[derive(Clone, Copy, Debug, PartialEq, Eq)]
pub enum Role {
    Circuit,
    Script,
    Trace,
    Proof,
}

impl Role {
    /// The word for such a file in the lines about it.
    pub fn text(self) -> &'static [u8]
        ensures { result.now ≡ role_text self }
    {
        match self {
            Role::Circuit => b"circuit",
            Role::Script => b"script",
            Role::Trace => b"trace",
            Role::Proof => b"proof",
        }
    }

    /// The word before the refusal of such a text.
    pub fn refused_text(self) -> &'static [u8]
        ensures { result.now ≡ refused_text self }
    {
        match self {
            Role::Circuit => b"circuit",
            Role::Script => b"script",
            Role::Trace => b"verify",
            Role::Proof => b"proof",
        }
    }

    /// The most bytes of such a file.
    pub(crate) fn most_bytes(self) -> usize
        ensures exact { result ≡ most_bytes self }
        ensures small { result < 2 ^ 63 }
    {
        match self {
            Role::Circuit | Role::Script => 1_048_576,
            Role::Trace | Role::Proof => 67_108_864,
        }
    }

    /// The status of such a text that is refused.
    pub fn refused_status(self) -> u8
        ensures { result ≡ refused_status self }
    {
        match self {
            Role::Circuit => CIRCUIT_REFUSED,
            Role::Script => SCRIPT_REFUSED,
            Role::Trace => TRACE_REFUSED,
            Role::Proof => PROOF_REFUSED,
        }
    }
}
