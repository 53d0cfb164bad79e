//! Reading the tokens of a text.
ghost use Rattle.std.specs.Prelude.{◌≡◌, ◌+◌, ◌≤◌, ◌<◌, ◌^◌, length, List, IfOk, All};
ghost use Rattle.reo_grammar.specs.Tokens.{AreReal};
ghost use Rattle.reo_lexer.specs.Lexing.{IsTokens, Lies, lexemes_of};
ghost use Rattle.reo_lexer.specs.Faults.{IsFault, IsLexed, IsThese, IsThat};
ghost use Rattle.reo_lexer.specs.Skipping.{Finds};
ghost use Rattle.reo_lexer.specs.declared.token.Token.{Token as TokenSpec};
ghost use Rattle.reo_lexer.specs.declared.token.LexFault.{LexFault as FaultSpec};

use crate::front::front_of;
use crate::parts::{gap_length, lines_in};
use crate::{LexFault, Token};
use reo_values::List;
use std::alloc::Global;

/// The next token from a place and a line on, or None where a gap alone is left.
fn next_token(text: &[u8], at: usize, line: u32) -> Result<Option<Token>, LexFault>
    requires short { length text.now < 2 ^ 32 }
    requires within { at ≤ length text.now }
    requires lines { line ≤ at + 1 }
    ensures found { Finds text.now at line result }
{
    let left = &text[at..];
    let gap = gap_length(left);
    let start = at + gap;
    if start == text.len() {
        return Ok(None);
    }
    let line = line + lines_in(&left[..gap]) as u32;
    let front = front_of(&text[start..], line)?;
    Ok(Some(Token {
        kind: front.kind,
        start,
        end: start + front.length,
        line,
    }))
}

fn tokens_of(alloc: Global, text: &[u8]) -> Result<List<Token>, LexFault>
    requires { length text.now < 2 ^ 32 }
    ensures { IsLexed text.now result }
{
    let mut tokens = List::new(alloc);
    let mut at = 0;
    let mut line = 1;
    'reading: while let Some(token) = next_token(text, at, line)? {
        tokens.push(token)?;
        at = token.end;
        line = token.line;
    }
    Ok(tokens)
}

/// The tokens of a text, in order. Otherwise the first fault: `BadByte`, `OpenText` and
/// `NumberTooLong` exactly where the text has that fault, and `NoMemory` where it is out of memory.
pub fn lex(alloc: Global, text: &[u8]) -> Result<List<Token>, LexFault>
    requires { length text.now < 2 ^ 32 }
    ensures lexed { IsLexed text.now result }
    ensures tokens { (ts : List TokenSpec) → IsTokens text.now ts → IsThese ts result }
    ensures fault { (f : FaultSpec) → IsFault text.now f → IsThat f result }

    // Each token's bytes lie in the text, and are spelled as its kind says.
    ensures spans { IfOk result (λ ts. All (Lies text.now) ts) }
    ensures real { IfOk result (λ ts. AreReal (lexemes_of text.now ts)) }
{
    tokens_of(alloc, text)
}
