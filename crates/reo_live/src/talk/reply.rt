//! What is told of a line that was judged.
use crate::base::Answer;
use reo_values::Bytes;

/// The answer to a line: of a round that was made the text of its line, line feed included.
#[derive(Drop)]
pub(crate) enum Reply {
    /// The text of the line of a round.
    Made(Bytes),
    /// Another answer.
    Other(Answer),
}
