//! Reading actions.
ghost use Rattle.std.specs.Prelude.{◌≡◌, ℕ, List, codes};
ghost use Rattle.reo_grammar.specs.Grammar.{read, reads};
ghost use Rattle.reo_grammar.specs.Grammar.Grammar.{chain, rule, nothing};
ghost use Rattle.reo_cursor.specs.Reading.{Gives};
ghost use Rattle.reo_trees.specs.Forms.{word, ◌◂◌};
ghost use Rattle.reo_trees.specs.Rules.{circuit_rules};
ghost use Rattle.reo_terms.specs.Reading.{read_plain};
ghost use Rattle.reo_script.specs.scripts.ScriptForms.{within_form, write_form, take_form, pause_form, times_form, action_list, actions_form, repeat_form, action_form, script_rules};
ghost use Rattle.reo_script.specs.scripts.ScriptForms.ScriptRule.{action_rule};

use crate::scripts::ActionForm;
use reo_cursor::{Cursor, Halt};
use reo_terms::literal;
use reo_values::List;
use std::alloc::Global;

/// The greatest number of rounds, and of times.
const MOST_ROUNDS: u64 = 1_000_000_000;

/// A bound, if there is one.
fn within(cursor: &mut Cursor) -> Result<Option<u32>, Halt>
    ensures { Gives result cursor.new (read_plain within_form cursor.old) }
{
    if cursor.is(b"within") {
        cursor.expect(b"within")?;
        let rounds = cursor.number(1, MOST_ROUNDS)?;
        Ok(Some(rounds as u32))
    } else {
        Ok(None)
    }
}

/// A bound, if there is one, and the `;` behind it.
fn within_end(cursor: &mut Cursor) -> Result<Option<u32>, Halt>
    ensures { Gives result cursor.new (read_plain (within_form ◂ word (codes ";")) cursor.old) }
{
    let within = within(cursor)?;
    cursor.expect(b";")?;
    Ok(within)
}

fn write(cursor: &mut Cursor, alloc: Global, room: usize) -> Result<ActionForm, Halt>
    ensures { Gives result cursor.new (read (reads circuit_rules room) write_form cursor.old) }
{
    let line = cursor.line();
    cursor.expect(b"write")?;
    let port = cursor.name(alloc)?;
    let literal = literal(cursor, alloc, room)?;
    let within = within_end(cursor)?;
    Ok(ActionForm::Write {
        line,
        port,
        literal,
        within,
    })
}

fn take(cursor: &mut Cursor, alloc: Global) -> Result<ActionForm, Halt>
    ensures { Gives result cursor.new (read_plain take_form cursor.old) }
{
    let line = cursor.line();
    cursor.expect(b"take")?;
    let port = cursor.name(alloc)?;
    let within = within_end(cursor)?;
    Ok(ActionForm::Take { line, port, within })
}

fn pause(cursor: &mut Cursor) -> Result<ActionForm, Halt>
    ensures { Gives result cursor.new (read_plain pause_form cursor.old) }
{
    cursor.expect(b"pause")?;
    let rounds = cursor.number(1, MOST_ROUNDS)?;
    cursor.expect(b";")?;
    Ok(ActionForm::Pause {
        rounds: rounds as u32,
    })
}

/// How often a body is done, and the `{` before it.
fn times(cursor: &mut Cursor) -> Result<u32, Halt>
    ensures { Gives result cursor.new (read_plain times_form cursor.old) }
{
    cursor.expect(b"repeat")?;
    let times = cursor.number(0, MOST_ROUNDS)?;
    cursor.expect(b"{")?;
    Ok(times as u32)
}

#[cycle(action)]
fn repeated(cursor: &mut Cursor, alloc: Global, room: usize) -> Result<ActionForm, Halt>
    ensures { Gives result cursor.new (read (reads script_rules room) repeat_form cursor.old) }
{
    let times = times(cursor)?;
    let body = actions(cursor, alloc, room)?;
    Ok(ActionForm::Repeat { times, body })
}

#[cycle(action)]
fn some_action(cursor: &mut Cursor, alloc: Global, room: usize) -> Result<ActionForm, Halt>
    ensures { Gives result cursor.new (read (reads script_rules room) action_form cursor.old) }
{
    if cursor.is(b"write") {
        write(cursor, alloc, room)
    } else if cursor.is(b"take") {
        take(cursor, alloc)
    } else if cursor.is(b"pause") {
        pause(cursor)
    } else {
        repeated(cursor, alloc, room)
    }
}

/// An action, with rules nested at most `room` deep.
#[cycle(action)]
fn action(cursor: &mut Cursor, alloc: Global, room: usize) -> Result<ActionForm, Halt>
    ensures { Gives result cursor.new (reads script_rules room action_rule cursor.old) }
{
    if room == 0 {
        return Err(Halt::Room);
    }
    some_action(cursor, alloc, room - 1)
}

/// Actions up to a `}` or the end.
#[cycle(action)]
fn list(cursor: &mut Cursor, alloc: Global, room: usize) -> Result<List<ActionForm>, Halt>
    ensures { Gives result cursor.new (read (reads script_rules room) action_list cursor.old) }
{
    let mut actions = List::new(alloc);
    'actions: while cursor.is_other(b"}") {
        let next = action(cursor, alloc, room)?;
        actions.push(next)?;
    }
    Ok(actions)
}

/// Actions, and the `}` behind them, with rules nested at most `room` deep.
#[cycle(action)]
pub fn actions(cursor: &mut Cursor, alloc: Global, room: usize) -> Result<List<ActionForm>, Halt>
    ensures { Gives result cursor.new (read (reads script_rules room) actions_form cursor.old) }
{
    let actions = list(cursor, alloc, room)?;
    cursor.expect(b"}")?;
    Ok(actions)
}
