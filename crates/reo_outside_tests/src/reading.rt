//! Reading lines and texts of traces.
ghost use Rattle.std.specs.Prelude.{◌≡◌, ◌∷◌, [], IfOk, ℕ, List as Items};
ghost use Rattle.reo_net_base.specs.declared.port.Port.{Port as APort};
ghost use Rattle.reo_outside_tests.specs.Told.{told_port, all_told};

use crate::checks::is;
use reo_net_base::{Port, Ports, Way};
use reo_trace::{ending_line_text, round_line_text};
use reo_trace_reader::{LineFault, TraceFault, TraceLine, read_line, read_trace};
use reo_values::{Bytes, Kindred, List, NoMemory};
use std::alloc::Global;
use std::test::Fail;

/// A port with a name of one byte.
fn port(alloc: Global, name: u8, way: Way, kindred: Kindred) -> Result<Port, NoMemory>
    ensures { IfOk result (λ p. p ≡ told_port name way kindred) }
{
    let mut bytes = Bytes::new(alloc);
    bytes.push(name)?;
    Ok(Port {
        name: bytes,
        way,
        kindred,
    })
}

/// The in port `a` and the out port `b`, which carry numbers, and the out port `c`, which carries
/// texts.
fn ports(alloc: Global) -> Result<Ports, NoMemory>
    ensures { IfOk result (λ p. p.list ≡ all_told) }
{
    let mut list = List::new(alloc);
    list.push(port(alloc, b'a', Way::In, Kindred::Int(0, 9))?)?;
    list.push(port(alloc, b'b', Way::Out, Kindred::Int(0, 9))?)?;
    list.push(port(alloc, b'c', Way::Out, Kindred::Text(9))?)?;
    Ok(Ports { list })
}

/// What a line is for these ports, written again: the line of a round or an ending with its line
/// feed, or that it is neither.
fn line_again(alloc: Global, text: &str) -> Result<Bytes, NoMemory> {
    let ports = ports(alloc)?;
    match read_line(alloc, text.as_bytes(), &ports) {
        Ok(TraceLine::Round(round)) => round_line_text(alloc, &ports, &round),
        Ok(TraceLine::Ending(ending)) => ending_line_text(alloc, &ending),
        Err(LineFault::Form) => Bytes::from_slice(alloc, b"form"),
        Err(LineFault::NoMemory) => Err(NoMemory),
    }
}

const LINES: &[(&str, &str)] = &[
    ("round 1: a!3 b?3 | 0 0 0", "round 1: a!3 b?3 | 0 0 0\n"),
    ("round 2: idle | 1 j 0.j", "round 2: idle | 1 j 0.j\n"),
    ("round 17: - | 1.0 20", "round 17: - | 1.0 20\n"),
    ("round 0: b?0 | j", "round 0: b?0 | j\n"),
    (
        "round 9223372036854775807: idle | 4294967295",
        "round 9223372036854775807: idle | 4294967295\n",
    ),
    ("round 1: idle | ", "round 1: idle | \n"),
    ("round 4: c?\"a | b\" | j", "round 4: c?\"a | b\" | j\n"),
    (
        "round 4: a!1 c?\"\\\"! ?\\\\\" | 0.j",
        "round 4: a!1 c?\"\\\"! ?\\\\\" | 0.j\n",
    ),
    ("round 4: c?\"\" | 0", "round 4: c?\"\" | 0\n"),
    ("done after 0 rounds", "done after 0 rounds\n"),
    ("stuck after 1 rounds", "stuck after 1 rounds\n"),
    (
        "limit after 9223372036854775807 rounds",
        "limit after 9223372036854775807 rounds\n",
    ),
    (
        "spent in round 1: knot 0 weight 5 budget 4",
        "spent in round 1: knot 0 weight 5 budget 4\n",
    ),
    ("wide in round 1: knot 0", "wide in round 1: knot 0\n"),
    ("", "form"),
    ("round 1: a!3 b?3 | 0 0 0\n", "form"),
    ("round 9223372036854775808: idle | 0", "form"),
    ("round 18446744073709551617: idle | 0", "form"),
    ("round 1: idle | 4294967296", "form"),
    ("round 1: idle |", "form"),
    ("round 1: idle | 0.", "form"),
    ("round 1: idle | .0", "form"),
    ("round 1: idle | 0.1.2", "form"),
    ("round 1: b?3 a!3 | 0", "form"),
    ("round 1: c?\"a | 0", "form"),
    ("round 1: c?\"0123456789\" | 0", "form"),
    ("round 1: c?a | 0", "form"),
    ("round 1: idle - | 0", "form"),
    ("done after  rounds", "form"),
    ("done after 1 rounds ", "form"),
    ("wide in round 1: knot ", "form"),
];

#[test]
fn lines_are_read_as_they_are_written(rt: HostRuntime) -> Result<(), Fail> {
    for (text, again) in LINES {
        let found = line_again(rt.alloc(), text)?;
        is(&rt, found.as_slice() == again.as_bytes(), text);
    }
    Ok(())
}

/// Whether a text is a trace, and how many rounds it has, or else its first wrong line.
fn rounds_of(alloc: Global, text: &str) -> Result<(bool, u64), NoMemory> {
    let ports = ports(alloc)?;
    match read_trace(alloc, text.as_bytes(), &ports) {
        Ok(trace) => Ok((true, trace.rounds.len() as u64)),
        Err(TraceFault::Line { line }) => Ok((false, line)),
        Err(TraceFault::NoMemory) => Err(NoMemory),
    }
}

const TEXTS: &[(&str, bool, u64)] = &[
    (
        "round 1: a!1 | 0 0 0 0.0\nround 2: a!2 | 0 0 1 0.1\ndone after 2 rounds\n",
        true,
        2,
    ),
    ("wide in round 1: knot 0\n", true, 0),
    ("round 1: a!1 | 0 0 0 0.0\n", false, 2),
    ("", false, 1),
];

#[test]
fn traces_are_read(rt: HostRuntime) -> Result<(), Fail> {
    for (text, is_trace, number) in TEXTS {
        let found = rounds_of(rt.alloc(), text)?;
        is(&rt, found == (*is_trace, *number), text);
    }
    Ok(())
}
