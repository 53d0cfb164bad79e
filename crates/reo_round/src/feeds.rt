//! What feeds each joint.
ghost use Rattle.std.specs.Prelude.{◌≡◌, ◌<◌, ◌==◌, ◌^◌, IfOk, if◌then◌else◌, length, replicate, set, slice_index};
ghost use Rattle.reo_net_base.specs.Net.{net_of};
ghost use Rattle.reo_round.specs.Feeds.{AreCodes, AreFeeds, row_code, state_code};

use reo_net_base::Primitive;
use reo_net_circuit::Circuit;
use reo_values::{List, NoMemory};
use std::alloc::Global;
use std::marker::Model;

/// The code where no joint goes to the side that a joint comes from.
pub(crate) const BY_STATE: u32 = u32::MAX;

/// The code where several joints go there.
pub(crate) const BY_ROW: u32 = u32::MAX - 1;

/// What feeds each joint of a circuit: the one joint that goes to the side that it comes from,
/// where there is one alone. It stays right for each circuit of the same shape.
///
/// Contracts see a code for each joint.
#[derive(Drop)]
pub struct Feeds {
    codes: List<u32>,
}

impl Model for Feeds {
    ghost use Rattle.std.specs.Prelude.{ℕ, List};

    ghost Value = { List ℕ };

    ghost view = { λ f. f.codes };
}

/// The code where no joint goes, for each of so many sides. `NoMemory` is out of memory.
fn no_feeds(alloc: Global, sides: usize) -> Result<List<u32>, NoMemory>
    ensures { IfOk result (λ codes. codes ≡ replicate sides state_code) }
{
    match vec![in alloc; BY_STATE; sides] {
        Ok(codes) => Ok(List::from_vec(codes)),
        Err(_) => Err(NoMemory),
    }
}

/// Notes a joint at the side that it goes to.
fn note(codes: &mut List<u32>, side: usize, joint: usize)
    requires side { side < length codes.old }
    requires joint { joint < 2 ^ 31 }
    ensures { codes.new ≡ set codes.old side
        (if slice_index codes.old side == state_code then joint else row_code) }
{
    let code = codes.at_mut(side);
    *code = match *code {
        BY_STATE => joint as u32,
        _ => BY_ROW,
    };
}

/// For each side the code of the joints that go there. `NoMemory` is out of memory.
fn feeds_of_sides<P: Primitive>(alloc: Global, circuit: &Circuit<P>) -> Result<List<u32>, NoMemory>
    ensures { let net = net_of P.behaviour circuit.now in
        IfOk result (AreCodes net (length net.joints)) }
{
    circuit.known();
    let mut codes = no_feeds(alloc, circuit.sides())?;
    for joint in 0..circuit.joint_count() {
        let side = circuit.side_of(circuit.joint(joint).taker);
        note(&mut codes, side, joint);
    }
    Ok(codes)
}

impl Feeds {
    /// What feeds each joint of a circuit, in steps as many as it has joints and sides. `NoMemory`
    /// is out of memory.
    pub fn new<P: Primitive>(alloc: Global, circuit: &Circuit<P>) -> Result<Feeds, NoMemory>
        ensures { IfOk result (AreFeeds (net_of P.behaviour circuit.now)) }
    {
        circuit.known();
        let sides = feeds_of_sides(alloc, circuit)?;
        let mut codes = List::new(alloc);
        for joint in 0..circuit.joint_count() {
            let side = circuit.side_of(circuit.joint(joint).giver);
            codes.push(*sides.at(side))?;
        }
        Ok(Feeds { codes })
    }

    /// The code of what feeds a joint.
    #[inline(always)]
    pub(crate) fn of(&self, joint: usize) -> u32
        requires { joint < length self.now }
        ensures { result ≡ slice_index self.now joint }
    {
        *self.codes.at(joint)
    }
}
