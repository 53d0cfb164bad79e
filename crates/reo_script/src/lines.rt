//! Reading event lines for the ports of a circuit.
ghost use Rattle.std.specs.Prelude.{◌≡◌, ◌<◌, ◌^◌, length, All, IfOk, Result, bytes_eq};
ghost use Rattle.std.specs.List.{position_from};
ghost use Rattle.reo_grammar.specs.Tokens.{AreReal};
ghost use Rattle.reo_grammar.specs.Levels.{Nowhere};
ghost use Rattle.reo_lexer.specs.Lexing.{IsTokens, Lies, lexemes_of};
ghost use Rattle.reo_script.specs.scripts.ScriptAnswers.{IsDeep};
ghost use Rattle.reo_net_base.specs.declared.port.Port.{Port as APort};
ghost use Rattle.reo_rules.specs.literals.Items.{HasFewNames};
ghost use Rattle.reo_script.specs.declared.scripts.event.Event.{Event as AnEvent};
ghost use Rattle.reo_script.specs.declared.scripts.event.EventFault.{EventFault as AFault};
ghost use Rattle.reo_script.specs.scripts.ScriptRules.{port_number};
ghost use Rattle.reo_script.specs.scripts.Events.{written_event, taken_event, withdrawn_event, event_for, AnswersEvent, IsReadEvent, IsThisEvent};
ghost use Rattle.reo_script.specs.Lines.{IsEventOf, IsSaidEvent};

use crate::depth::first_deep;
use crate::events::event;
use crate::scripts::{Event, EventFault, EventForm};
use reo_cursor::{Cursor, Halt};
use reo_lexer::{LexFault, Token, lex};
use reo_net_base::{Port, Ports, Way};
use reo_rules::item_of;
use reo_trees::Literal;
use reo_values::NoMemory;
use std::alloc::Global;

/// The event that all of a list of tokens say, where they say one.
fn event_of(alloc: Global, text: &[u8], tokens: &[Token]) -> Result<Option<EventForm>, NoMemory>
    requires spans { All (Lies text.now) tokens.now }
    requires real { AreReal (lexemes_of text.now tokens.now) }
    requires few { length tokens.now < 2 ^ 32 }
    ensures { IfOk result (IsEventOf (lexemes_of text.now tokens.now)) }
{
    let mut cursor = Cursor::new(text, tokens);
    match event(&mut cursor, alloc, tokens.len() + 1) {
        Ok(event) => {
            if cursor.left() == 0 {
                Ok(Some(event))
            } else {
                Ok(None)
            }
        }
        Err(Halt::Syntax) => Ok(None),
        Err(Halt::Room) => unreachable!(),
        Err(Halt::NoMemory) => Err(NoMemory),
    }
}

/// The event that tokens say of which none is too deep; otherwise `Form`.
fn said_by(alloc: Global, line: &[u8], tokens: &[Token]) -> Result<EventForm, EventFault>
    requires tokens { IsTokens line.now tokens.now }
    requires spans { All (Lies line.now) tokens.now }
    requires real { AreReal (lexemes_of line.now tokens.now) }
    requires few { length tokens.now < 2 ^ 32 }
    requires levels { Nowhere IsDeep (lexemes_of line.now tokens.now) }
    ensures { IsSaidEvent line.now result }
{
    match event_of(alloc, line, tokens)? {
        Some(event) => Ok(event),
        None => Err(EventFault::Form),
    }
}

/// The event that a line says; otherwise `Form`.
fn said_event(alloc: Global, line: &[u8]) -> Result<EventForm, EventFault>
    requires { length line.now < 2 ^ 32 }
    ensures { IsSaidEvent line.now result }
{
    let tokens = match lex(alloc, line) {
        Ok(tokens) => tokens,
        Err(LexFault::NoMemory) => return Err(EventFault::NoMemory),
        Err(_) => return Err(EventFault::Form),
    };
    let tokens = tokens.as_slice();
    match first_deep(line, tokens) {
        None => said_by(alloc, line, tokens),
        Some(_) => Err(EventFault::Form),
    }
}

/// The place of the first port of a name.
fn place_of(ports: &[Port], name: &[u8]) -> Option<usize>
    ensures { result ≡ position_from (λ (p : APort). bytes_eq name.now p.name) 0 ports.now }
{
    ports.iter().position(|port| name == port.name.as_slice())
}

/// The number of the port of a name, if there is one.
fn number_of(ports: &[Port], name: &[u8]) -> Option<usize>
    ensures { result ≡ port_number ports.now name.now }
{
    place_of(ports, name)
}

/// A write, at a port that takes it.
fn written(
    alloc: Global,
    ports: &[Port],
    name: &[u8],
    literal: &Literal,
) -> Result<Event, EventFault>
    requires { All (λ (p : APort). HasFewNames p.kindred) ports.now }
    ensures { IsThisEvent (written_event ports.now name.now literal.now) result }
{
    let Some(number) = number_of(ports, name) else {
        return Err(EventFault::NoPort);
    };
    let port = &ports[number];
    if port.way != Way::In {
        return Err(EventFault::WrongWay);
    }
    match item_of(alloc, &port.kindred, literal)? {
        Some(item) => Ok(Event::Write { port: number, item }),
        None => Err(EventFault::ItemOutside { port: number }),
    }
}

/// A take, at a port that gives items.
fn taken(ports: &[Port], name: &[u8]) -> Result<Event, EventFault>
    ensures { result ≡ taken_event ports.now name.now }
{
    let Some(number) = number_of(ports, name) else {
        return Err(EventFault::NoPort);
    };
    if ports[number].way == Way::In {
        return Err(EventFault::WrongWay);
    }
    Ok(Event::Take { port: number })
}

/// A withdrawal, at any port.
fn withdrawn(ports: &[Port], name: &[u8]) -> Result<Event, EventFault>
    ensures { result ≡ withdrawn_event ports.now name.now }
{
    match number_of(ports, name) {
        Some(number) => Ok(Event::Withdraw { port: number }),
        None => Err(EventFault::NoPort),
    }
}

/// The event for these ports.
fn event_at(alloc: Global, ports: &[Port], form: &EventForm) -> Result<Event, EventFault>
    requires { All (λ (p : APort). HasFewNames p.kindred) ports.now }
    ensures { IsThisEvent (event_for ports.now form.now) result }
{
    match form {
        EventForm::Nothing => Ok(Event::Nothing),
        EventForm::Write { port, literal } => written(alloc, ports, port.as_slice(), literal),
        EventForm::Take { port } => taken(ports, port.as_slice()),
        EventForm::Withdraw { port } => withdrawn(ports, port.as_slice()),
        EventForm::Round => Ok(Event::Round),
        EventForm::End => Ok(Event::End),
    }
}

/// The answer to a line, for these ports.
fn answer_of(alloc: Global, line: &[u8], ports: &[Port]) -> Result<Event, EventFault>
    requires few { length line.now < 2 ^ 32 }
    requires ports { All (λ (p : APort). HasFewNames p.kindred) ports.now }
    ensures { IsReadEvent line.now ports.now result }
{
    let form = said_event(alloc, line)?;
    event_at(alloc, ports, &form)
}

/// The event that a line says for these ports; `Nothing` for a line without tokens. A line feed
/// within it is a blank, as in every text. Otherwise the first of these, each exactly where it
/// holds: `Form` where the line says no event, or a literal of more than 64 levels; `NoPort`, no
/// port has the name; `WrongWay`, a write at a port that gives items or a take at one that takes
/// them; `ItemOutside`, the literal is no item of the port's type. `NoMemory` is out of memory.
pub fn read_event(alloc: Global, line: &[u8], ports: &Ports) -> Result<Event, EventFault>
    requires few { length line.now < 2 ^ 32 }
    requires ports { All (λ (p : APort). HasFewNames p.kindred) ports.now.list }
    ensures read { IsReadEvent line.now ports.now.list result }
    ensures only { (answer : Result AnEvent AFault) → AnswersEvent line.now ports.now.list answer
        → IsThisEvent answer result }
{
    answer_of(alloc, line, ports.list.as_slice())
}
