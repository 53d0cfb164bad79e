//! The words of the drawing command.
ghost use Rattle.std.specs.Prelude.{◌≡◌};
ghost use Rattle.reo_command.specs.Commands.{none_empty};
ghost use Rattle.reo_draw_command.specs.Words.{drawing_of, drawing_by};

use reo_values::Bytes;

/// What is drawn.
#[derive(Clone, Copy, Debug, PartialEq, Eq)]
pub enum Drawing {
    /// `CIRCUIT` draws a circuit.
    Circuit,
    /// `CIRCUIT SCRIPT TRACE` writes what moved at the ports in the rounds of a trace.
    Table,
    /// `CIRCUIT SCRIPT TRACE ROUND` draws the circuit in a round of a trace.
    Round,
}

/// Whether none of these words is empty.
fn none_empty(words: &[Bytes]) -> bool
    ensures { result ≡ none_empty words.now }
{
    words.iter().all(|word| !word.is_empty())
}

/// What so many words ask for.
fn drawing_by(count: usize) -> Option<Drawing>
    ensures { result ≡ drawing_by count }
{
    if count == 1 {
        Some(Drawing::Circuit)
    } else if count == 3 {
        Some(Drawing::Table)
    } else if count == 4 {
        Some(Drawing::Round)
    } else {
        None
    }
}

/// What some words ask for: `None` exactly where they have no form.
pub fn drawing_of(words: &[Bytes]) -> Option<Drawing>
    ensures { result ≡ drawing_of words.now }
{
    if none_empty(words) {
        drawing_by(words.len())
    } else {
        None
    }
}
