//! Why a script is refused.
ghost use Rattle.std.specs.Prelude.{◌≡◌};

use reo_lexer::LexFault;
use reo_values::{Bytes, NoMemory};
use std::fmt::{self, Debug, Display, Formatter};
use thiserror::Error;

/// Why a script text is refused. Each line is counted from 1; those of the rules on ports are
/// that of the action's first token.
#[derive(Drop, Error)]
pub enum ScriptFault {
    /// The text has no tokens, for this cause.
    #[error(transparent)]
    Lex(LexFault),
    /// The line of the first token after which no script goes on. Where the whole text only begins
    /// one, the line of the last token.
    #[error("line {line}: syntax")]
    Syntax { line: u32 },
    /// The line of the first token with a level above 64, or of a `repeat` in sixteen others.
    #[error("line {line}: too deep")]
    TooDeep { line: u32 },
    /// No port has the name.
    #[error("line {line}: no port of this name")]
    NoPort { line: u32, name: Bytes },
    /// A write at an `out` port, or a take at an `in` port.
    #[error("line {line}: a port of the other way")]
    WrongWay { line: u32, name: Bytes },
    /// The literal is no item of the port's type.
    #[error("line {line}: outside the type")]
    ItemOutside { line: u32 },
    /// An earlier component names the port.
    #[error("line {line}: a port of another component")]
    Shared { line: u32, name: Bytes },
    /// Out of memory.
    #[error("no memory")]
    NoMemory,
}

impl From<NoMemory> for ScriptFault {
    ghost use Rattle.reo_script.specs.declared.scripts.fault.ScriptFault.TheVariants.{NoMemory as OutOfMemory};

    ghost from_gives = { λ _ e. e ≡ OutOfMemory };

    fn from(_: NoMemory) -> Self {
        ScriptFault::NoMemory
    }
}

impl From<LexFault> for ScriptFault {
    ghost use Rattle.reo_script.specs.scripts.Faults.{fault_of_lex};

    ghost from_gives = { λ f e. e ≡ fault_of_lex f };

    fn from(fault: LexFault) -> Self {
        match fault {
            LexFault::NoMemory => ScriptFault::NoMemory,
            other => ScriptFault::Lex(other),
        }
    }
}

impl Debug for ScriptFault {
    fn fmt<W: fmt::Write>(&self, f: &mut Formatter<W>) -> fmt::Result {
        Display::fmt(self, f)
    }
}
