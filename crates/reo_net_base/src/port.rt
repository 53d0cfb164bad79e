//! Ports, and what components offer there.
ghost use Rattle.std.specs.Prelude.{◌≡◌, ◌<◌, ◌≤◌, IsTrue, ◌↔◌, Option, IsSome, Some, None, cond};
ghost use Rattle.reo_values.specs.declared.value.Value.{Value as Item};
ghost use Rattle.reo_net_base.specs.declared.colouring.Chosen.{Chosen as Rows};
ghost use Rattle.reo_net_base.specs.declared.port.Offer.{Offer as Offered};
ghost use Rattle.reo_net_base.specs.Marks.{is_flow};
ghost use Rattle.reo_net_base.specs.Lasting.{KeepsTables};
ghost use Rattle.reo_net_base.specs.Lawful.{SameShape, TreatsAlike};
ghost use Rattle.reo_net_base.specs.PortState.{PortState, CanPlace, IsPortWith};

use crate::primitive::Primitive;
use reo_values::{Bytes, Kindred, List, Value};

/// Which way items go at a port: into the circuit or out of it.
#[derive(Clone, Copy, Debug, PartialEq, Eq)]
pub enum Way {
    In,
    Out,
}

/// What a component offers at a port: to write this item, or to take one.
#[derive(Drop)]
pub enum Offer {
    Write(Value),
    Take,
}

/// A port as its circuit's users see it.
#[derive(Drop)]
pub struct Port {
    pub name: Bytes,
    pub way: Way,
    pub kindred: Kindred,
}

/// The ports of a circuit, in the order of their numbers.
#[derive(Drop)]
pub struct Ports {
    pub list: List<Port>,
}

/// What can stand at a port.
pub trait Ported: Primitive {
    /// The primitive as a port, in its present state.
    ghost port_state: { Self → PortState };

    /// The primitive with an offer pending.
    ghost placed: { Self → Offered → Self };

    /// The primitive with no offer pending.
    ghost withdrawn: { Self → Self };

    /// The way of a port, and `None` for what is no port.
    fn way(&self) -> Option<Way>
        ensures { result ≡ (port_state self.now).way };

    /// Whether an item may be written here.
    fn fits(&self, item: &Value) -> bool
        ensures { result ≡ (port_state self.now).accepts item.now };

    /// Whether an offer is pending.
    fn pending(&self) -> bool
        ensures { IsTrue result ↔ IsSome (port_state self.now).pending };

    /// Makes this the pending offer.
    fn place(&mut self, offer: Offer)
        requires { CanPlace (port_state self.old) offer }
        ensures { self.new ≡ placed self.old offer };

    /// Takes the pending offer back.
    fn withdraw(&mut self)
        requires { IsSome (port_state self.old).pending }
        ensures { self.new ≡ withdrawn self.old };

    /// What is no port has no pending offer.
    ghost no_port: { (p : Self) → (port_state p).way ≡ None → (port_state p).pending ≡ None };

    /// An offer that is placed is pending, and the rest stays.
    ghost placed_port: { (p : Self) (offer : Offered) → CanPlace (port_state p) offer
        → IsPortWith (port_state p) (port_state (placed p offer)) (Some offer) };

    ghost placed_shape: { (p : Self) (offer : Offered)
        → SameShape (Self.behaviour p) (Self.behaviour (placed p offer)) };

    ghost placed_alike: { (p : Self) (offer : Offered)
        → TreatsAlike (Self.behaviour p) (Self.behaviour (placed p offer)) };

    ghost placed_lasting: { (p : Self) (offer : Offered)
        → Self.lasting (placed p offer) ≡ Self.lasting p };

    ghost placed_tables: { (p : Self) (offer : Offered)
        → KeepsTables (Self.lasting p) (Self.behaviour p) (Self.behaviour (placed p offer)) };

    /// After a withdrawal nothing is pending, and the rest stays.
    ghost withdrawn_port: { (p : Self)
        → IsPortWith (port_state p) (port_state (withdrawn p)) None };

    ghost withdrawn_shape: { (p : Self)
        → SameShape (Self.behaviour p) (Self.behaviour (withdrawn p)) };

    ghost withdrawn_alike: { (p : Self)
        → TreatsAlike (Self.behaviour p) (Self.behaviour (withdrawn p)) };

    ghost withdrawn_lasting: { (p : Self) → Self.lasting (withdrawn p) ≡ Self.lasting p };

    ghost withdrawn_tables: { (p : Self)
        → KeepsTables (Self.lasting p) (Self.behaviour p) (Self.behaviour (withdrawn p)) };

    /// After a round the offer is gone where the port flowed, and else as it was. The rest stays.
    ghost settled_port: { (p : Self) (rows : Rows) (taken : Option Item)
        → IsPortWith (port_state p) (port_state (Self.settled p rows taken))
        (cond (is_flow ((Self.behaviour p).mark 0 rows.first 0)) None (port_state p).pending) };
}

/// Ports at which an offer that is taken back leaves nothing behind. Only runs ask for it: they
/// take an offer back where its action gives up, and place the offers of the next round anew.
pub trait Restoring: Ported {
    /// An offer that is taken back and placed again is as if it had stayed.
    ghost placed_again: { (p : Self) (offer : Offered)
        → (Self.port_state p).pending ≡ Some offer
        → Self.placed (Self.withdrawn p) offer ≡ p };
}
