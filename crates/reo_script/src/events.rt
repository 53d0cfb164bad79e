//! Reading event lines.
ghost use Rattle.std.specs.Prelude.{◌≡◌, ◌<◌, ◌^◌, length, All, IfOk, MatchOption, Result};
ghost use Rattle.reo_grammar.specs.Tokens.Class.{named};
ghost use Rattle.reo_grammar.specs.Grammar.{read, reads, Says, starts};
ghost use Rattle.reo_lexer.specs.Lexing.{IsTokens, Lies, lexemes_of};
ghost use Rattle.reo_cursor.specs.Reading.{Gives};
ghost use Rattle.reo_trees.specs.Rules.{circuit_rules};
ghost use Rattle.reo_terms.specs.Reading.{read_plain};
ghost use Rattle.reo_script.specs.scripts.Events.{called, write_event, take_event, withdraw_event, event_form};

use crate::scripts::EventForm;
use reo_cursor::{Cursor, Halt};
use reo_lexer::TokenKind;
use reo_terms::literal;
use std::alloc::Global;

/// Whether a name of this text is next.
fn is_called(cursor: &Cursor, text: &[u8]) -> bool
    ensures { result ≡ starts (named text.now) cursor.now }
{
    match cursor.next() {
        Some(seen) => seen.kind == TokenKind::Name && seen.bytes == text,
        None => false,
    }
}

/// Takes a name of this text.
fn call(cursor: &mut Cursor, alloc: Global, text: &[u8]) -> Result<(), Halt>
    ensures { Gives result cursor.new (read_plain (called text.now) cursor.old) }
{
    if !is_called(cursor, text) {
        return Err(Halt::Syntax);
    }
    cursor.name(alloc)?;
    Ok(())
}

fn write(cursor: &mut Cursor, alloc: Global, room: usize) -> Result<EventForm, Halt>
    ensures { Gives result cursor.new (read (reads circuit_rules room) write_event cursor.old) }
{
    cursor.expect(b"write")?;
    let port = cursor.name(alloc)?;
    let literal = literal(cursor, alloc, room)?;
    Ok(EventForm::Write { port, literal })
}

fn take(cursor: &mut Cursor, alloc: Global) -> Result<EventForm, Halt>
    ensures { Gives result cursor.new (read_plain take_event cursor.old) }
{
    cursor.expect(b"take")?;
    let port = cursor.name(alloc)?;
    Ok(EventForm::Take { port })
}

fn withdraw(cursor: &mut Cursor, alloc: Global) -> Result<EventForm, Halt>
    ensures { Gives result cursor.new (read_plain withdraw_event cursor.old) }
{
    call(cursor, alloc, b"withdraw")?;
    let port = cursor.name(alloc)?;
    Ok(EventForm::Withdraw { port })
}

/// An event, with rules nested at most `room` deep, or no token.
pub(crate) fn event(cursor: &mut Cursor, alloc: Global, room: usize) -> Result<EventForm, Halt>
    ensures { Gives result cursor.new (read (reads circuit_rules room) event_form cursor.old) }
{
    if cursor.is(b"write") {
        write(cursor, alloc, room)
    } else if cursor.is(b"take") {
        take(cursor, alloc)
    } else if is_called(cursor, b"withdraw") {
        withdraw(cursor, alloc)
    } else if is_called(cursor, b"round") {
        call(cursor, alloc, b"round")?;
        Ok(EventForm::Round)
    } else if is_called(cursor, b"end") {
        call(cursor, alloc, b"end")?;
        Ok(EventForm::End)
    } else {
        Ok(EventForm::Nothing)
    }
}
