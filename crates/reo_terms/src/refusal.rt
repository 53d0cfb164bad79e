//! The line of a refusal.
ghost use Rattle.std.specs.Prelude.{◌≡◌, ℕ, ◌<◌, ◌≤◌, List, length, drop};
ghost use Rattle.reo_lexer.specs.Lexing.{lexemes_of};
ghost use Rattle.reo_terms.specs.Refused.{refused_line};

use reo_lexer::Token;

/// The line of the token that is refused, or of the last token where all are but a beginning.
pub fn line_of_refusal(tokens: &[Token], place: usize) -> u32
    requires { 0 < length tokens.now }
    ensures { (text : List ℕ) → place ≤ length tokens.now
        → result ≡ refused_line (lexemes_of text tokens.now)
        (drop place (lexemes_of text tokens.now)) }
{
    tokens[place.min(tokens.len() - 1)].line
}
