//! Reading whole script texts.
ghost use Rattle.std.specs.Prelude.{◌≡◌, ◌<◌, ◌^◌, length, All, IfOk};
ghost use Rattle.reo_grammar.specs.Tokens.{AreReal};
ghost use Rattle.reo_grammar.specs.Levels.{Nowhere};
ghost use Rattle.reo_lexer.specs.Lexing.{IsTokens, Lies, lexemes_of};
ghost use Rattle.reo_terms.specs.Refused.{IsFirstDeep};
ghost use Rattle.reo_script.specs.scripts.ScriptAnswers.{IsDeep, IsSaid};
ghost use Rattle.reo_script.specs.Reading.{IsRead};

use crate::depth::first_deep;
use crate::reading::components;
use crate::scripts::{ComponentForm, ScriptFault};
use reo_cursor::{Cursor, Halt};
use reo_lexer::{Token, lex};
use reo_terms::line_of_refusal;
use reo_values::{List, NoMemory};
use std::alloc::Global;

/// What reading all of a list of tokens comes to.
#[derive(Drop)]
pub enum ScriptReading {
    /// They say these components.
    Said(List<ComponentForm>),
    /// They are refused at this place, which is past the last one where they only begin a text.
    Refused { place: usize },
}

fn read_all(alloc: Global, text: &[u8], tokens: &[Token]) -> Result<ScriptReading, NoMemory>
    requires spans { All (Lies text.now) tokens.now }
    requires real { AreReal (lexemes_of text.now tokens.now) }
    requires few { length tokens.now < 2 ^ 32 }
    ensures { IfOk result (IsRead (lexemes_of text.now tokens.now)) }
{
    let mut cursor = Cursor::new(text, tokens);
    match components(&mut cursor, alloc, tokens.len() + 1) {
        Ok(components) => {
            if cursor.left() == 0 {
                Ok(ScriptReading::Said(components))
            } else {
                Ok(ScriptReading::Refused {
                    place: tokens.len() - cursor.left(),
                })
            }
        }
        Err(Halt::Syntax) => Ok(ScriptReading::Refused {
            place: tokens.len() - cursor.left(),
        }),
        Err(Halt::Room) => unreachable!(),
        Err(Halt::NoMemory) => Err(NoMemory),
    }
}

/// The answer where no token is too deep.
fn said_within(
    alloc: Global,
    text: &[u8],
    tokens: &[Token],
) -> Result<List<ComponentForm>, ScriptFault>
    requires tokens { IsTokens text.now tokens.now }
    requires spans { All (Lies text.now) tokens.now }
    requires real { AreReal (lexemes_of text.now tokens.now) }
    requires few { length tokens.now < 2 ^ 32 }
    requires levels { Nowhere IsDeep (lexemes_of text.now tokens.now) }
    ensures { IsSaid text.now result }
{
    match read_all(alloc, text, tokens)? {
        ScriptReading::Said(components) => Ok(components),
        ScriptReading::Refused { place } => Err(ScriptFault::Syntax {
            line: line_of_refusal(tokens, place),
        }),
    }
}

/// The answer where the token at this place is the first that is too deep. The tokens
/// behind it decide nothing.
fn said_above(
    alloc: Global,
    text: &[u8],
    tokens: &[Token],
    place: usize,
) -> Result<List<ComponentForm>, ScriptFault>
    requires tokens { IsTokens text.now tokens.now }
    requires spans { All (Lies text.now) tokens.now }
    requires real { AreReal (lexemes_of text.now tokens.now) }
    requires few { length tokens.now < 2 ^ 32 }
    requires levels { IsFirstDeep IsDeep (lexemes_of text.now tokens.now) place }
    ensures { IsSaid text.now result }
{
    let too_deep = ScriptFault::TooDeep {
        line: tokens[place].line,
    };
    match read_all(alloc, text, &tokens[..place + 1])? {
        ScriptReading::Said(_) => Err(too_deep),
        ScriptReading::Refused { place: refused } => {
            if refused <= place {
                Err(ScriptFault::Syntax {
                    line: tokens[refused].line,
                })
            } else {
                Err(too_deep)
            }
        }
    }
}

/// The components that a text says. Otherwise the first fault of its tokens; or its first
/// refusal, `Syntax` or `TooDeep`, as they stand in the text.
pub fn said(alloc: Global, text: &[u8]) -> Result<List<ComponentForm>, ScriptFault>
    requires { length text.now < 2 ^ 32 }
    ensures { IsSaid text.now result }
{
    let tokens = lex(alloc, text)?;
    let tokens = tokens.as_slice();
    match first_deep(text, tokens) {
        None => said_within(alloc, text, tokens),
        Some(place) => said_above(alloc, text, tokens, place),
    }
}
