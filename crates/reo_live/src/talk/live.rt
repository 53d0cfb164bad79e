//! A circuit that is talked to.
ghost use Rattle.std.specs.Prelude.{◌≡◌, ◌<◌, ◌≤◌, ◌+◌, ◌-◌, ◌^◌, length, map, All, IfOk, Err, true, false};
ghost use Rattle.reo_io.specs.Causes.{Rose};
ghost use Rattle.reo_rules.specs.literals.Items.{HasFewNames};
ghost use Rattle.reo_net_base.specs.declared.port.Port.{Port as APort};
ghost use Rattle.reo_rounds.specs.Offering.{AreJustPorts};
ghost use Rattle.reo_rounds.specs.Rules.{rules_of};
ghost use Rattle.reo_live.specs.base.Live.{beginning};
ghost use Rattle.reo_live.specs.talk.Fed.{IsFed, IsFinished};
ghost use Rattle.reo_live.specs.talk.Outcomes.{is_over};
ghost use Rattle.reo_live.specs.declared.talk.fault.LiveFault.TheVariants as faults;

use crate::talk::closing::hear_end;
use crate::talk::fault::{Going, LiveFault};
use crate::talk::hearing::hear;
use crate::talk::open_line::OpenLine;
use reo_engine::Engine;
use reo_io::Sink;
use reo_net_base::{Ported, Ports};
use reo_net_circuit::Circuit;
use reo_values::NoMemory;
use std::alloc::Global;
use std::marker::Model;

/// Whether it is over behind what is returned.
fn is_over(returned: &Result<Going, LiveFault>) -> bool
    ensures { result ≡ is_over returned.now }
{
    match returned {
        Ok(Going::More) => false,
        Ok(Going::Ended) => true,
        Err(_) => true,
    }
}

/// A circuit that is talked to line by line.
///
/// It is spent once it is over, by the event `end`, by a round that cannot be planned or by the end
/// of the input, and after each fault.
#[derive(Drop)]
pub struct Live<P: Ported> {
    engine: Engine<P>,
    ports: Ports,
    budget: u64,
    lines: u64,
    line: OpenLine,
    is_spent: bool,
}

impl<P: Ported> Model for Live<P> {
    ghost use Rattle.std.specs.Prelude.{◌≤◌, ◌<◌, ◌^◌, All};
    ghost use Rattle.reo_rules.specs.literals.Items.{HasFewNames};
    ghost use Rattle.reo_net_base.specs.declared.port.Port.{Port as APort};
    ghost use Rattle.reo_live.specs.talk.Talks.{Talk, live_of};
    ghost use Rattle.reo_values.specs.contracts.kindred.Kindred as kindred;
    ghost use Rattle.std.specs.Coded.{codes};

    ghost Value = { Talk P };

    ghost coded = { Prim.hlevel (codes, kindred.the_row.coded) };

    ghost view = { λ l. record {
      live = live_of l.engine l.lines l.is_spent l.line;
      ports = l.ports.list;
      budget = l.budget;
    } };

    ghost invariant = { λ l. (l.budget < 10 ^ 18)
        × (l.engine.rounds ≤ l.lines)
        × All (λ (p : APort). HasFewNames p.kindred) l.ports.list };
}

impl<P: Ported> Live<P> {
    /// A circuit that has heard nothing, for these ports and this budget. `NoMemory` is out of
    /// memory.
    pub fn over(
        alloc: Global,
        circuit: Circuit<P>,
        ports: Ports,
        budget: u64,
    ) -> Result<Live<P>, NoMemory>
        requires small { budget < 10 ^ 18 }
        requires just { AreJustPorts (map P.port_state circuit.primitives) circuit.ports }
        requires names { All (λ (p : APort). HasFewNames p.kindred) ports.list }
        ensures live { IfOk result (λ made. made.live ≡ beginning circuit) }
        ensures ports { IfOk result (λ made. made.ports ≡ ports.list) }
        ensures budget { IfOk result (λ made. made.budget ≡ budget) }
    {
        let engine = Engine::new(alloc, circuit)?;
        Ok(Live {
            engine,
            ports,
            budget,
            lines: 0,
            line: OpenLine::new(alloc),
            is_spent: false,
        })
    }

    /// Hears a piece, and writes the answers to the lines that it ends, up to and including that to
    /// the event `end`. `Ended` comes exactly where that event is judged; it is spent then.
    ///
    /// # Errors
    ///
    /// It is spent after each. `Failed`: only where the sink's count of faults rose, and it rises
    /// nowhere else; the sink has got a part of the answers, and not the whole. `Wide` and `Spent`:
    /// exactly where a round cannot be planned; all answers before it were written, and then the
    /// ending that says so. `NoMemory` is out of memory: the sink has got whole lines of the
    /// answers, in order and none skipped.
    pub fn feed<S: Sink>(
        &mut self,
        alloc: Global,
        piece: &[u8],
        out: &mut S,
    ) -> Result<Going, LiveFault>
        requires unspent { self.old.live.stand.over ≡ false }
        requires few { self.old.live.stand.lines + length piece.now < 2 ^ 63 }
        ensures fed { let r = rules_of P.behaviour P.settled P.port_state P.placed P.withdrawn in
            IsFed self.old.ports (S.told out.old) (S.told out.new) r self.old.budget
            self.old.live piece.now self.new.live result }
        ensures spent { self.new.live.stand.over ≡ is_over result }
        ensures lines { let old = self.old.live.stand.lines in
            self.new.live.stand.lines ≤ old + length piece.now }
        ensures ports { self.new.ports ≡ self.old.ports }
        ensures budget { self.new.budget ≡ self.old.budget }
        ensures cause { result ≡ Err faults.Failed → Rose (S.faults out.old) (S.faults out.new) }
        ensures later { S.faults out.old ≤ S.faults out.new }
        ensures risen { S.faults out.old < S.faults out.new → result ≡ Err faults.Failed }
    {
        let result = hear(
            alloc,
            &mut self.engine,
            &self.ports,
            self.budget,
            &mut self.lines,
            &mut self.line,
            piece,
            out,
        );
        self.is_spent = is_over(&result);
        result
    }

    /// Judges the line that has not ended, if it is not empty, and writes that nothing further is
    /// judged. It is spent then.
    ///
    /// # Errors
    ///
    /// The same as those of `feed`.
    pub fn finish<S: Sink>(&mut self, alloc: Global, out: &mut S) -> Result<(), LiveFault>
        requires unspent { self.old.live.stand.over ≡ false }
        requires few { self.old.live.stand.lines < 2 ^ 63 - 1 }
        ensures finished { let old = self.old in
            let r = rules_of P.behaviour P.settled P.port_state P.placed P.withdrawn in
            IsFinished old.ports (S.told out.old) (S.told out.new) r old.budget old.live result }
        ensures spent { self.new.live.stand.over ≡ true }
        ensures ports { self.new.ports ≡ self.old.ports }
        ensures budget { self.new.budget ≡ self.old.budget }
        ensures cause { result ≡ Err faults.Failed → Rose (S.faults out.old) (S.faults out.new) }
        ensures later { S.faults out.old ≤ S.faults out.new }
        ensures risen { S.faults out.old < S.faults out.new → result ≡ Err faults.Failed }
    {
        let lines = self.lines;
        self.lines += 1;
        self.is_spent = true;
        hear_end(
            alloc,
            &mut self.engine,
            &self.ports,
            self.budget,
            lines,
            &self.line,
            out,
        )
    }

    /// Lets it go, and gives its memory back. How its parts go is proved with this call, and not
    /// again in a crate that lets it go by it.
    pub fn release(self) {
        drop(self);
    }
}
