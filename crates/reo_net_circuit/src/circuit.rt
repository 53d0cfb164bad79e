//! Circuits.
ghost use Rattle.std.specs.Prelude.{◌≡◌, ℕ, ◌+◌, ◌<◌, ◌≤◌, ◌^◌, ◌*◌, IfOk, IsSome, Some, None, MatchResult, map, length, slice_index_or};
ghost use Rattle.std.specs.List.{position_or_len};
ghost use Rattle.reo_net_base.specs.Wired.{NoCycle, IsWired, IsEnd, IsOrder, ArePorts};
ghost use Rattle.reo_net_base.specs.declared.joint.Joint.{Joint as JointEnds};
ghost use Rattle.reo_net_base.specs.Net.{net_of, all_sides, behaviour_at, first_side, side_at, side_of_end, Side, end_of, is_at, from_sides, to_sides};
ghost use Rattle.reo_net_base.specs.Lawful.{SameShape};
ghost use Rattle.reo_net_base.specs.Colouring.{IsColouring};
ghost use Rattle.reo_net_base.specs.Step.{stepped, change_at};
ghost use Rattle.reo_net_base.specs.Shapes.{SameNetShape, SamePortedShape};
ghost use Rattle.reo_net_base.specs.PortState.{CanPlace, port_state_at};
ghost use Rattle.reo_net_circuit.specs.Parts.{wiring_of, AreJoints};
ghost use Rattle.reo_net_circuit.specs.Layout.{IsLaidOut};
ghost use Rattle.reo_net_circuit.specs.Offers.{OnlyPort, OnlyState};
ghost use Rattle.reo_net_circuit.specs.Fault.{HasNoFault, IsNetFault};

use crate::checked::{CircuitTables, tables_of};
use crate::fault::NetFault;
use crate::layout::SideOwner;
use crate::ports::{place_at, put_at, withdraw_at};
use crate::step::{settle_at, step_all};
use reo_net_base::{Chosen, Colouring, End, Joint, Offer, Ported, Primitive, order_has_no_cycle};
use reo_values::{List, Value};
use std::alloc::Global;
use std::marker::Model;

/// Primitives, of which the first so many are ports, and joints between their ends.
///
/// There are fewer than 2^31 primitives and fewer than 2^31 joints, and no directed cycle of
/// sides. Sides are numbered from 0 in the order of their primitives. Contracts see a circuit as
/// its primitives in their present states, the number of its ports and its joints.
#[derive(Drop)]
pub struct Circuit<P: Primitive> {
    primitives: Vec<P>,
    ports: usize,
    joints: List<Joint>,
    tables: CircuitTables,
}

impl<P: Primitive> Model for Circuit<P> {
    ghost use Rattle.reo_net_base.specs.Net.{Wiring};
    ghost use Rattle.reo_net_circuit.specs.Parts.{wiring_of};
    ghost use Rattle.reo_net_circuit.specs.Circuit.{IsCircuit};

    ghost Value = { Wiring P };

    ghost view = { λ a. wiring_of a.primitives.items a.ports a.joints };

    ghost invariant = { λ a. IsCircuit P.behaviour
        (wiring_of a.primitives.items a.ports a.joints) a.tables };
}

impl<P: Primitive> Circuit<P> {
    /// The circuit of these primitives, of which the first `ports` are its ports, and joints.
    ///
    /// # Errors
    ///
    /// The first fault, in this order: `Ends` with the least primitive that has an end that is
    /// not in exactly one joint, `Way` with the least joint whose giver takes in or whose taker
    /// does not, `Cycle` with the least joint on a directed cycle of sides. `NoMemory` is out of
    /// memory.
    pub fn new(
        alloc: Global,
        primitives: List<P>,
        ports: usize,
        joints: List<Joint>,
    ) -> Result<Circuit<P>, NetFault>
        requires few_primitives { length primitives < 2 ^ 31 }
        requires few_joints { length joints < 2 ^ 31 }
        requires ports { ArePorts (map P.behaviour primitives) ports }
        requires joints { AreJoints (net_of P.behaviour (wiring_of primitives ports joints)) }
        ensures circuit { IfOk result (λ circuit. circuit ≡ wiring_of primitives ports joints) }
        ensures exact { let net = net_of P.behaviour (wiring_of primitives ports joints) in
            MatchResult result (λ circuit. HasNoFault net) (IsNetFault net) }
    {
        order_has_no_cycle();
        match tables_of(alloc, primitives.as_slice(), ports, joints.as_slice()) {
            Err(fault) => Err(fault),
            Ok(tables) => Ok(Circuit {
                primitives: primitives.into_vec(),
                ports,
                joints,
                tables,
            }),
        }
    }

    /// What holds of each circuit: its joints go from ends that give to ends that take in, each
    /// end is in exactly one joint, no directed cycle of sides exists, and there are fewer than
    /// 2^31 primitives, so also ports, and fewer than 2^31 joints.
    pub fn known(&self)
        ensures wired { IsWired (net_of P.behaviour self.now) }
        ensures no_cycle { let net = net_of P.behaviour self.now in NoCycle (from_sides net)
            (to_sides net) }
        ensures few_primitives { length self.now.primitives < 2 ^ 31 }
        ensures few_ports { self.now.ports < 2 ^ 31 }
        ensures few_joints { length self.now.joints < 2 ^ 31 }
    {
        order_has_no_cycle();
        let _ = &self.ports;
    }

    /// What holds of the ports of each circuit: each has one side and one end.
    pub fn known_ports(&self)
        ensures { ArePorts (net_of P.behaviour self.now).primitives self.now.ports }
    {
        let _ = &self.ports;
    }

    /// The primitives, in their present states.
    pub fn primitives(&self) -> &[P]
        ensures { result.now ≡ self.now.primitives }
    {
        &self.primitives
    }

    /// One of the primitives.
    pub fn primitive(&self, index: usize) -> &P
        requires { index < length self.now.primitives }
        ensures value { result.now ≡ slice_index_or self.now.primitives index result.now }
        ensures behaviour { P.behaviour result.now ≡ behaviour_at
            (net_of P.behaviour self.now).primitives index }
    {
        &self.primitives[index]
    }

    /// How many ports there are: the first primitives.
    pub fn ports(&self) -> usize
        ensures { result ≡ self.now.ports }
    {
        self.ports
    }

    /// The joints.
    pub fn joints(&self) -> &[Joint]
        ensures { result.now ≡ self.now.joints }
    {
        self.joints.as_slice()
    }

    /// How many joints there are.
    pub fn joint_count(&self) -> usize
        ensures { result ≡ length self.now.joints }
    {
        self.joints.len()
    }

    /// One of the joints.
    pub fn joint(&self, index: usize) -> Joint
        requires { index < length self.now.joints }
        ensures { (d : JointEnds) → slice_index_or self.now.joints index d ≡ result }
    {
        *self.joints.at(index)
    }

    /// An order of the joints in which none stands before those that feed it.
    pub fn order(&self) -> &[usize]
        ensures { IsOrder (net_of P.behaviour self.now) result.now }
    {
        self.tables.order.as_slice()
    }

    /// How many sides there are.
    pub fn sides(&self) -> usize
        ensures { result ≡ length (all_sides (net_of P.behaviour self.now).primitives) }
    {
        self.tables.owners.len()
    }

    /// Which side of which primitive a side is.
    pub fn owner(&self, side: usize) -> SideOwner
        requires { side < length (all_sides (net_of P.behaviour self.now).primitives) }
        ensures primitive { result.primitive < length self.now.primitives }
        ensures side { result.side <
            (behaviour_at (net_of P.behaviour self.now).primitives result.primitive).sides }
        ensures place { side ≡ first_side (net_of P.behaviour self.now).primitives result.primitive
            + result.side }
        ensures owner { (e : Side)
            → slice_index_or (all_sides (net_of P.behaviour self.now).primitives) side e
            ≡ record {
              of = behaviour_at
                  (net_of P.behaviour self.now).primitives result.primitive;
              number = result.side;
            } }
    {
        self.stands(side)
    }

    /// Which side of which primitive a side is, by the numbers alone.
    fn stands(&self, side: usize) -> SideOwner
        requires { side < length (all_sides (net_of P.behaviour self.now).primitives) }
        ensures primitive { result.primitive < length self.now.primitives }
        ensures side { result.side <
            (behaviour_at (net_of P.behaviour self.now).primitives result.primitive).sides }
        ensures place { side ≡ first_side (net_of P.behaviour self.now).primitives result.primitive
            + result.side }
    {
        *self.tables.owners.at(side)
    }

    /// The first side of a primitive.
    pub fn first_of(&self, primitive: usize) -> usize
        requires { primitive < length self.now.primitives }
        ensures { result ≡ first_side (net_of P.behaviour self.now).primitives primitive }
    {
        *self.tables.firsts.at(primitive)
    }

    /// Which of all sides an end is of.
    #[tactic(auto, unfolding(reo_net_base::specs::Net::side_at))]
    pub fn side_of(&self, end: End) -> usize
        requires { IsEnd (net_of P.behaviour self.now).primitives end }
        ensures number { result ≡ side_at (net_of P.behaviour self.now) end }
        ensures in_range { result < length (all_sides (net_of P.behaviour self.now).primitives) }
        ensures side { (e : Side)
            → slice_index_or (all_sides (net_of P.behaviour self.now).primitives) result e
            ≡ side_of_end (net_of P.behaviour self.now) end }
    {
        self.known();
        let _sides = self.sides();
        let first = self.first_of(end.primitive);
        let side = self.primitive(end.primitive).side_of(end.end);
        first + side
    }

    /// The joint at the one end of a port.
    pub fn port_joint(&self, port: usize) -> usize
        requires { port < self.now.ports }
        ensures joint { result ≡ position_or_len (is_at (end_of port 0)) self.now.joints }
        ensures in_range { result < length self.now.joints }
    {
        self.known();
        self.known_ports();
        *self.tables.port_joints.at(port)
    }

    /// Each primitive goes on by the rows of its sides and the item at its mouth. The shape of the
    /// circuit stays. This takes no memory.
    pub fn step(&mut self, colouring: Colouring)
        requires { IsColouring (net_of P.behaviour self.old) colouring.rows colouring.items }
        ensures circuit { let primitives = stepped P.behaviour P.settled self.old
            colouring.rows colouring.items in
            self.new ≡ record self.old { primitives = primitives } }
        ensures shape { SameNetShape P.behaviour self.old self.new }
    {
        let Colouring { rows, items } = colouring;
        step_all(
            self.primitives.as_mut_slice(),
            self.joints.as_slice(),
            self.tables.firsts.as_slice(),
            self.tables.mouths.as_slice(),
            rows.as_slice(),
            items.into_vec(),
        );
    }

    /// One primitive goes on by the rows of its sides and an item that comes in at its mouth. All
    /// others stay, and so does the shape of the circuit. This takes no memory.
    pub fn settle(&mut self, index: usize, rows: Chosen, taken: Option<Value>)
        requires index { index < length self.old.primitives }
        ensures circuit { self.new ≡ record self.old {
          primitives = change_at (λ p. P.settled p rows taken) self.old.primitives index;
        } }
        ensures shape { SameNetShape P.behaviour self.old self.new }
    {
        settle_at(self.primitives.as_mut_slice(), index, rows, taken);
    }
}

impl<P: Ported> Circuit<P> {
    /// Makes this the pending offer of a port. All else stays. This takes no memory.
    pub fn place(&mut self, port: usize, offer: Offer)
        requires port { port < self.old.ports }
        requires offer { CanPlace
            (port_state_at (map P.port_state self.old.primitives) port) offer }
        ensures circuit { self.new
            ≡ record self.old {
              primitives = change_at
                  (λ p. P.placed p offer) self.old.primitives port;
            } }
        ensures shape { SamePortedShape P.behaviour P.port_state self.old self.new }
        ensures offers { OnlyPort (map P.port_state self.old.primitives)
            (map P.port_state self.new.primitives) port (Some offer) }
    {
        place_at(self.primitives.as_mut_slice(), port, offer);
    }

    /// Takes the pending offer of a port back. All else stays. This takes no memory.
    pub fn withdraw(&mut self, port: usize)
        requires port { port < self.old.ports }
        requires pending { IsSome (port_state_at
            (map P.port_state self.old.primitives) port).pending }
        ensures circuit { self.new
            ≡ record self.old { primitives = change_at P.withdrawn self.old.primitives port } }
        ensures shape { SamePortedShape P.behaviour P.port_state self.old self.new }
        ensures offers { OnlyPort (map P.port_state self.old.primitives)
            (map P.port_state self.new.primitives) port None }
    {
        withdraw_at(self.primitives.as_mut_slice(), port);
    }

    /// Puts a primitive in place of one that has its shape, which is handed back. The shape of the
    /// circuit stays, each other primitive stays with its offer, and in place of what the old
    /// primitive was as a port there is what the new one is. This takes no memory.
    pub fn put(&mut self, index: usize, primitive: P) -> P
        requires index { index < length self.old.primitives }
        requires shape { SameShape (behaviour_at (net_of P.behaviour self.old).primitives index)
            (P.behaviour primitive) }
        ensures circuit { self.new
            ≡ record self.old {
              primitives = change_at
                  (λ _. primitive) self.old.primitives index;
            } }
        ensures before { result ≡ slice_index_or self.old.primitives index result }
        ensures shape { SameNetShape P.behaviour self.old self.new }
        ensures ports { OnlyState (map P.port_state self.old.primitives)
            (map P.port_state self.new.primitives) index (P.port_state primitive) }
    {
        put_at(self.primitives.as_mut_slice(), index, primitive)
    }
}
