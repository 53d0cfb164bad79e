//! Moves of round lines.
ghost use Rattle.std.specs.Prelude.{◌≡◌, ◌≢◌, ◌++◌, ◌+◌, ℕ, List, Some, true, false};
ghost use Rattle.reo_net_base.specs.declared.colouring.Move.{Move as AMove};
ghost use Rattle.reo_trace.specs.RoundText.{move_text};
ghost use Rattle.reo_trace_reader.specs.texts.Lines.{AreTold, IsMove};
ghost use Rattle.reo_trace_reader.specs.Ends.{Anything, EndsMove};
ghost use Rattle.reo_trace_reader.specs.Fronts.{AreFlows, AreMoves, IsMoveFrom, IsPortFrom, flows_text, moves_front, port_text, text_at};
ghost use Rattle.reo_trace_reader.specs.Reads.{Stood, ReadsAgain};

use crate::item::item;
use crate::texts::LineFault;
use reo_net_base::{Move, Port, Ports, Way};
use reo_values::{List, Unread};
use std::alloc::Global;

/// What flowed at the ports in a round.
#[derive(Drop)]
pub(crate) struct PortFlows {
    pub idle: bool,
    pub moves: List<Move>,
}

/// Takes the name of a port with the sign of its way, or answers false where it is not next.
fn is_next(reader: &mut Unread, port: &Port) -> bool
    ensures taken { result ≡ true → reader.old ≡ port_text (Some port.now) ++ reader.new }
    ensures stays { result ≡ false → reader.new ≡ reader.old }
    ensures none { result ≡ false → (rest : List ℕ)
        → reader.old ≢ port_text (Some port.now) ++ rest }
{
    match port.way {
        Way::In => reader.words(port.name.as_slice(), b"!"),
        Way::Out => reader.words(port.name.as_slice(), b"?"),
    }
}

/// The number of a port, from this number on.
fn port(reader: &mut Unread, ports: &Ports, from: usize) -> Result<usize, LineFault>
    requires { AreTold ports.now.list }
    ensures stood { Stood (IsPortFrom ports.now.list from) (text_at ports.now.list)
        result reader.old reader.new }
    ensures again { ReadsAgain (IsPortFrom ports.now.list from) (text_at ports.now.list) Anything
        result reader.old reader.new }
{
    let mut number = from;
    while number < ports.list.len() {
        if is_next(reader, ports.list.at(number)) {
            return Ok(number);
        }
        number += 1;
    }
    Err(LineFault::Form)
}

/// A move at a port, from this number on.
fn one_move(
    alloc: Global,
    reader: &mut Unread,
    ports: &Ports,
    from: usize,
) -> Result<Move, LineFault>
    requires { AreTold ports.now.list }
    ensures stood { Stood (IsMoveFrom ports.now.list from) (move_text ports.now.list)
        result reader.old reader.new }
    ensures again { ReadsAgain (IsMoveFrom ports.now.list from) (move_text ports.now.list) EndsMove
        result reader.old reader.new }
{
    let port = port(reader, ports, from)?;
    let item = item(alloc, reader, &ports.list.at(port).kindred)?;
    Ok(Move { port, item })
}

/// The number after that of a move's port.
fn number_behind(ports: &Ports, one: &Move) -> usize
    requires { IsMove ports.now.list one.now }
    ensures { result ≡ one.now.port + 1 }
{
    let count = ports.list.len();
    prove!(one.port < count);
    one.port + 1
}

/// The moves of a round, at least one, up to the entries.
fn moves(alloc: Global, reader: &mut Unread, ports: &Ports) -> Result<List<Move>, LineFault>
    requires { AreTold ports.now.list }
    ensures stood { Stood (AreMoves ports.now.list) (moves_front ports.now.list)
        result reader.old reader.new }
    ensures again { ReadsAgain (AreMoves ports.now.list) (moves_front ports.now.list) Anything
        result reader.old reader.new }
{
    let mut made = List::new(alloc);
    let first = one_move(alloc, reader, ports, 0)?;
    let mut from = number_behind(ports, &first);
    made.push(first)?;
    while !reader.word(b" | ") {
        if !reader.word(b" ") {
            return Err(LineFault::Form);
        }
        let next = one_move(alloc, reader, ports, from)?;
        from = number_behind(ports, &next);
        made.push(next)?;
    }
    Ok(made)
}

/// What flowed at the ports in a round, up to the entries.
pub(crate) fn read_flows(
    alloc: Global,
    reader: &mut Unread,
    ports: &Ports,
) -> Result<PortFlows, LineFault>
    requires { AreTold ports.now.list }
    ensures stood { Stood (AreFlows ports.now.list) (flows_text ports.now.list)
        result reader.old reader.new }
    ensures again { ReadsAgain (AreFlows ports.now.list) (flows_text ports.now.list) Anything
        result reader.old reader.new }
{
    if reader.word(b"idle | ") {
        return Ok(PortFlows {
            idle: true,
            moves: List::new(alloc),
        });
    }
    if reader.word(b"- | ") {
        return Ok(PortFlows {
            idle: false,
            moves: List::new(alloc),
        });
    }
    let moves = moves(alloc, reader, ports)?;
    Ok(PortFlows { idle: false, moves })
}
