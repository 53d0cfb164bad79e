//! Reading whole circuit texts of either version.
ghost use Rattle.std.specs.Prelude.{◌≡◌, ◌<◌, ◌^◌, length, All, IfOk, Result, List, true, false};
ghost use Rattle.reo_grammar.specs.Tokens.{AreReal};
ghost use Rattle.reo_grammar.specs.Levels.{Nowhere};
ghost use Rattle.reo_lexer.specs.declared.token.Token.{Token as TokenSpec};
ghost use Rattle.reo_lexer.specs.Lexing.{IsTokens, Lies, lexemes_of};
ghost use Rattle.reo_trees.specs.declared.programs_two.AnyProgram.{AnyProgram as AnySpec};
ghost use Rattle.reo_trees.specs.SaysTwo.{IsDeepTwo};
ghost use Rattle.reo_terms.specs.Refused.{IsFirstDeep};
ghost use Rattle.reo_parser.specs.declared.fault.ParseFault.{ParseFault as FaultSpec};
ghost use Rattle.reo_parser.specs.two.Reading.{IsRead};
ghost use Rattle.reo_parser.specs.two.ParsedAny.{is_second, AnswersAny, IsParsedAny, IsThisAny};

use crate::two::depth::first_deep;
use crate::two::programs::program;
use crate::{ParseFault, parse};
use reo_cursor::{Cursor, Halt};
use reo_lexer::{Token, lex};
use reo_terms::line_of_refusal;
use reo_trees::{AnyProgram, ProgramTwo};
use reo_values::NoMemory;
use std::alloc::Global;

/// What reading all of a list of tokens comes to.
#[derive(Drop)]
pub enum Parsing {
    /// They say this program.
    Said(ProgramTwo),
    /// They are refused at this place, which is past the last one where they only begin a text.
    Refused { place: usize },
}

fn read_all(alloc: Global, text: &[u8], tokens: &[Token]) -> Result<Parsing, NoMemory>
    requires spans { All (Lies text.now) tokens.now }
    requires real { AreReal (lexemes_of text.now tokens.now) }
    requires few { length tokens.now < 2 ^ 32 }
    ensures { IfOk result (IsRead (lexemes_of text.now tokens.now)) }
{
    let mut cursor = Cursor::new(text, tokens);
    match program(&mut cursor, alloc, tokens.len() + 1) {
        Ok(program) => {
            if cursor.left() == 0 {
                Ok(Parsing::Said(program))
            } else {
                Ok(Parsing::Refused {
                    place: tokens.len() - cursor.left(),
                })
            }
        }
        Err(Halt::Syntax) => Ok(Parsing::Refused {
            place: tokens.len() - cursor.left(),
        }),
        Err(Halt::Room) => unreachable!(),
        Err(Halt::NoMemory) => Err(NoMemory),
    }
}

/// The answer to a text of version 2 where no token is too deep.
fn answer_within(alloc: Global, text: &[u8], tokens: &[Token]) -> Result<AnyProgram, ParseFault>
    requires second { is_second (lexemes_of text.now tokens.now) ≡ true }
    requires tokens { IsTokens text.now tokens.now }
    requires spans { All (Lies text.now) tokens.now }
    requires real { AreReal (lexemes_of text.now tokens.now) }
    requires few { length tokens.now < 2 ^ 32 }
    requires levels { Nowhere IsDeepTwo (lexemes_of text.now tokens.now) }
    ensures { IsParsedAny text.now result }
{
    match read_all(alloc, text, tokens)? {
        Parsing::Said(program) => Ok(AnyProgram::Two(program)),
        Parsing::Refused { place } => Err(ParseFault::Syntax {
            line: line_of_refusal(tokens, place),
        }),
    }
}

/// The answer where the token at this place is the first that is too deep. The tokens behind it
/// decide nothing.
fn answer_above(
    alloc: Global,
    text: &[u8],
    tokens: &[Token],
    place: usize,
) -> Result<AnyProgram, ParseFault>
    requires second { is_second (lexemes_of text.now tokens.now) ≡ true }
    requires tokens { IsTokens text.now tokens.now }
    requires spans { All (Lies text.now) tokens.now }
    requires real { AreReal (lexemes_of text.now tokens.now) }
    requires few { length tokens.now < 2 ^ 32 }
    requires levels { IsFirstDeep IsDeepTwo (lexemes_of text.now tokens.now) place }
    ensures { IsParsedAny text.now result }
{
    let too_deep = ParseFault::TooDeep {
        line: tokens[place].line,
    };
    match read_all(alloc, text, &tokens[..place + 1])? {
        Parsing::Said(_) => Err(too_deep),
        Parsing::Refused { place: refused } => {
            if refused <= place {
                Err(ParseFault::Syntax {
                    line: tokens[refused].line,
                })
            } else {
                Err(too_deep)
            }
        }
    }
}

/// The answer to a text of version 2.
fn answer_second(alloc: Global, text: &[u8], tokens: &[Token]) -> Result<AnyProgram, ParseFault>
    requires second { is_second (lexemes_of text.now tokens.now) ≡ true }
    requires tokens { IsTokens text.now tokens.now }
    requires spans { All (Lies text.now) tokens.now }
    requires real { AreReal (lexemes_of text.now tokens.now) }
    requires few { length tokens.now < 2 ^ 32 }
    ensures { IsParsedAny text.now result }
{
    match first_deep(text, tokens) {
        None => answer_within(alloc, text, tokens),
        Some(place) => answer_above(alloc, text, tokens, place),
    }
}

/// The answer to a text of version 1.
fn answer_first(alloc: Global, text: &[u8]) -> Result<AnyProgram, ParseFault>
    requires { length text.now < 2 ^ 32 }
    ensures { (ts : List TokenSpec) → IsTokens text.now ts
        → is_second (lexemes_of text.now ts) ≡ false → IsParsedAny text.now result }
{
    let program = parse(alloc, text)?;
    Ok(AnyProgram::One(program))
}

/// Whether the tokens are those of a text of version 2.
fn is_second_text(text: &[u8], tokens: &[Token]) -> bool
    requires spans { All (Lies text.now) tokens.now }
    requires real { AreReal (lexemes_of text.now tokens.now) }
    ensures { result ≡ is_second (lexemes_of text.now tokens.now) }
{
    let cursor = Cursor::new(text, tokens);
    cursor.is_named(b"reo")
}

/// The answer to any text.
fn answer_of(alloc: Global, text: &[u8]) -> Result<AnyProgram, ParseFault>
    requires { length text.now < 2 ^ 32 }
    ensures { IsParsedAny text.now result }
{
    let tokens = lex(alloc, text)?;
    let tokens = tokens.as_slice();
    if is_second_text(text, tokens) {
        answer_second(alloc, text, tokens)
    } else {
        answer_first(alloc, text)
    }
}

/// The program of a circuit text: of version 2 where its first token is the name `reo`, and
/// otherwise of version 1, as `parse` reads it.
///
/// # Errors
///
/// Those of `parse`, each exactly where it holds, for the grammar of the text's version: `Lex`,
/// `Syntax`, and `TooDeep` at a level above 64, or in version 2 at a loop within eight others.
/// `NoMemory` means out of memory.
pub fn parse_any(alloc: Global, text: &[u8]) -> Result<AnyProgram, ParseFault>
    requires { length text.now < 2 ^ 32 }
    ensures parsed { IsParsedAny text.now result }
    ensures only { (answer : Result AnySpec FaultSpec) → AnswersAny text.now answer
        → IsThisAny answer result }
{
    answer_of(alloc, text)
}
