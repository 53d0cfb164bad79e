//! Why texts are refused, for all layers alike.
ghost use Rattle.std.specs.Prelude.{◌≡◌, ◌++◌, IfOk, OnOk, Some};
ghost use Rattle.reo_command.specs.Refusals.{on_line, on_no_line, lex_refusal, parse_refusal, expand_refusal, flat_refusal, script_refusal, trace_refusal, line_text, refusal_text};

use reo_expand::ExpandFault;
use reo_lexer::LexFault;
use reo_parser::ParseFault;
use reo_rules::FlatFault;
use reo_script::ScriptFault;
use reo_trace_reader::TraceFault;
use reo_values::{Bytes, NoMemory};
use std::alloc::Global;

/// Why a text is refused.
#[derive(Drop)]
pub struct Refusal {
    /// The line of the cause, from 1, where it has one.
    pub line: Option<u32>,
    /// The words of the cause, with the name that it speaks of.
    pub words: Bytes,
}

/// A cause on a line. `NoMemory` is out of memory.
fn on_line(alloc: Global, line: u32, words: &[u8]) -> Result<Refusal, NoMemory>
    ensures { IfOk result (λ refusal. on_line line words.now ≡ Some refusal) }
{
    let words = Bytes::from_slice(alloc, words)?;
    Ok(Refusal {
        line: Some(line),
        words,
    })
}

/// Why a text without tokens is refused. `NoMemory` is out of memory.
fn lex_refusal(alloc: Global, fault: &LexFault) -> Result<Refusal, NoMemory>
    ensures { IfOk result (λ refusal. lex_refusal fault.now ≡ Some refusal) }
{
    match fault {
        LexFault::BadByte { line } => on_line(alloc, *line, b"bad byte"),
        LexFault::OpenText { line } => on_line(alloc, *line, b"open text"),
        LexFault::NumberTooLong { line } => on_line(alloc, *line, b"number too long"),
        LexFault::NoMemory => Err(NoMemory),
    }
}

/// Why a circuit text is refused, by the fault that it has. `NoMemory` is out of memory.
pub(crate) fn parse_refusal(alloc: Global, fault: &ParseFault) -> Result<Refusal, NoMemory>
    ensures { IfOk result (λ refusal. parse_refusal fault.now ≡ Some refusal) }
{
    match fault {
        ParseFault::Lex(fault) => lex_refusal(alloc, fault),
        ParseFault::Syntax { line } => on_line(alloc, *line, b"syntax"),
        ParseFault::TooDeep { line } => on_line(alloc, *line, b"too deep"),
        ParseFault::NoMemory => Err(NoMemory),
    }
}

/// A cause on no line. `NoMemory` is out of memory.
fn on_no_line(alloc: Global, words: &[u8]) -> Result<Refusal, NoMemory>
    ensures { IfOk result (λ refusal. on_no_line words.now ≡ Some refusal) }
{
    let words = Bytes::from_slice(alloc, words)?;
    Ok(Refusal { line: None, words })
}

/// A name, or a word before it, with what stands behind. `NoMemory` is out of memory.
fn joined(alloc: Global, first: &[u8], second: &[u8]) -> Result<Bytes, NoMemory>
    ensures { IfOk result (λ words. words ≡ first.now ++ second.now) }
{
    let mut words = Bytes::from_slice(alloc, first)?;
    words.append(second)?;
    Ok(words)
}

/// Two words of a cause on a line. `NoMemory` is out of memory.
fn two_on_line(alloc: Global, line: u32, first: &[u8], second: &[u8]) -> Result<Refusal, NoMemory>
    ensures { IfOk result (λ refusal. on_line line (first.now ++ second.now) ≡ Some refusal) }
{
    let words = joined(alloc, first, second)?;
    Ok(Refusal {
        line: Some(line),
        words,
    })
}

/// Why a program of version 2 stands for none, by the first refusal. `NoMemory` is out of memory.
pub(crate) fn expand_refusal(alloc: Global, fault: &ExpandFault) -> Result<Refusal, NoMemory>
    ensures { IfOk result (λ refusal. expand_refusal fault.now ≡ Some refusal) }
{
    match fault {
        ExpandFault::Unbound { line, name } => {
            two_on_line(alloc, *line, name.as_slice(), b" unbound")
        }
        ExpandFault::Index { line } => on_line(alloc, *line, b"index"),
        ExpandFault::Number { line } => on_line(alloc, *line, b"arity"),
        ExpandFault::TooMany => on_no_line(alloc, b"too many"),
        ExpandFault::NoMemory => Err(NoMemory),
    }
}

/// Two words of a cause on no line. `NoMemory` is out of memory.
fn two_on_no_line(alloc: Global, first: &[u8], second: &[u8]) -> Result<Refusal, NoMemory>
    ensures { IfOk result (λ refusal. on_no_line (first.now ++ second.now) ≡ Some refusal) }
{
    let words = joined(alloc, first, second)?;
    Ok(Refusal { line: None, words })
}

/// Why a program is refused, by the first break of the first broken rule. `NoMemory` is out of
/// memory.
pub(crate) fn flat_refusal(alloc: Global, fault: &FlatFault) -> Result<Refusal, NoMemory>
    ensures { IfOk result (λ refusal. flat_refusal fault.now ≡ Some refusal) }
{
    match fault {
        FlatFault::Twice { line, name } => two_on_line(alloc, *line, name.as_slice(), b" twice"),
        FlatFault::Unknown { line, name } => {
            two_on_line(alloc, *line, name.as_slice(), b" unknown")
        }
        FlatFault::Mistyped { line } => on_line(alloc, *line, b"mistyped"),
        FlatFault::Range { line } => on_line(alloc, *line, b"range"),
        FlatFault::Arity { line } => on_line(alloc, *line, b"arity"),
        FlatFault::Direction { line, node } => {
            two_on_line(alloc, *line, b"direction ", node.as_slice())
        }
        FlatFault::Dangling { line, node } => {
            two_on_line(alloc, *line, b"dangling ", node.as_slice())
        }
        FlatFault::NoMain => on_no_line(alloc, b"no main"),
        FlatFault::TooMany => on_no_line(alloc, b"too many"),
        FlatFault::Cycle { node } => two_on_no_line(alloc, b"cycle ", node.as_slice()),
        FlatFault::NoMemory => Err(NoMemory),
    }
}

/// Why a script text is refused, by the fault that it has. `NoMemory` is out of memory.
pub(crate) fn script_refusal(alloc: Global, fault: &ScriptFault) -> Result<Refusal, NoMemory>
    ensures { IfOk result (λ refusal. script_refusal fault.now ≡ Some refusal) }
{
    match fault {
        ScriptFault::Lex(fault) => lex_refusal(alloc, fault),
        ScriptFault::Syntax { line } => on_line(alloc, *line, b"syntax"),
        ScriptFault::TooDeep { line } => on_line(alloc, *line, b"too deep"),
        ScriptFault::NoPort { line, name } => {
            two_on_line(alloc, *line, b"no port ", name.as_slice())
        }
        ScriptFault::WrongWay { line, name } => {
            two_on_line(alloc, *line, b"wrong way ", name.as_slice())
        }
        ScriptFault::ItemOutside { line } => on_line(alloc, *line, b"outside"),
        ScriptFault::Shared { line, name } => {
            two_on_line(alloc, *line, b"shared ", name.as_slice())
        }
        ScriptFault::NoMemory => Err(NoMemory),
    }
}

/// Why a text that is no trace is refused. `NoMemory` is out of memory.
pub(crate) fn trace_refusal(alloc: Global, fault: TraceFault) -> Result<Refusal, NoMemory>
    ensures { IfOk result (λ refusal. trace_refusal fault ≡ Some refusal) }
{
    match fault {
        TraceFault::Line { line } => {
            let Ok(number) = line.to_string(alloc) else {
                return Err(NoMemory);
            };
            two_on_no_line(alloc, b"line ", number.as_bytes())
        }
        TraceFault::NoMemory => Err(NoMemory),
    }
}

/// Adds where the cause is. `NoMemory` is out of memory.
fn append_line(alloc: Global, out: &mut Bytes, line: Option<u32>) -> Result<(), NoMemory>
    ensures { OnOk result (out.new ≡ out.old ++ line_text line) }
{
    let Some(line) = line else {
        return Ok(());
    };
    let Ok(number) = line.to_string(alloc) else {
        return Err(NoMemory);
    };
    out.append(b"line ")?;
    out.append(number.as_bytes())?;
    out.append(b": ")
}

/// Adds the line and the words of a refusal. `NoMemory` is out of memory.
pub fn append_refusal(alloc: Global, out: &mut Bytes, refusal: &Refusal) -> Result<(), NoMemory>
    ensures { OnOk result (out.new ≡ out.old ++ refusal_text refusal.now) }
{
    append_line(alloc, out, refusal.line)?;
    out.append(refusal.words.as_slice())
}
