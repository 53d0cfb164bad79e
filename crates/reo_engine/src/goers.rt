//! The primitives that a round goes to.
ghost use Rattle.std.specs.Prelude.{◌≡◌, true, IfOk, length};
ghost use Rattle.reo_flags.specs.Where.{AreKeptWhere};
ghost use Rattle.reo_engine.specs.Goers.{AreGoers, is_keeper};

use reo_flags::Flags;
use reo_net_base::Primitive;
use reo_net_circuit::Circuit;
use reo_values::NoMemory;
use std::alloc::Global;

/// The primitives that keep something between rounds or have two sides, told once; and room for
/// those of them that are gone to in a round.
#[derive(Drop)]
pub struct Goers {
    pub(crate) keepers: Flags,
    pub(crate) going: Flags,
}

/// Whether a primitive keeps something between rounds or has two sides.
fn is_keeper<P: Primitive>(primitive: &P) -> bool
    ensures { result ≡ is_keeper P.behaviour P.lasting primitive.now }
{
    primitive.keeps() || primitive.sides() == 2
}

impl Goers {
    /// For a circuit. `NoMemory` is out of memory.
    pub(crate) fn new<P: Primitive>(alloc: Global, circuit: &Circuit<P>) -> Result<Goers, NoMemory>
        ensures { IfOk result (AreGoers P.behaviour P.lasting circuit.now.primitives) }
    {
        let count = circuit.primitives().len();
        let mut keepers = Flags::new(alloc, count, false)?;
        for index in 0..count {
            keepers.put(index, is_keeper(circuit.primitive(index)));
        }
        let going = Flags::new(alloc, count, false)?;
        Ok(Goers { keepers, going })
    }

    /// Notes those of the marked primitives that are gone to. This takes no memory.
    pub(crate) fn note(&mut self, marks: &Flags)
        requires keepers { length self.old.keepers ≡ length marks.now }
        requires going { length self.old.going ≡ length marks.now }
        ensures going { AreKeptWhere true self.old.keepers marks.now self.new.going }
        ensures keepers { self.new.keepers ≡ self.old.keepers }
    {
        self.going.copy_from(marks);
        self.going.keep_where(&self.keepers);
    }
}
