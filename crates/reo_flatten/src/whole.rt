//! The flat circuit of a program.
ghost use Rattle.std.specs.Prelude.{◌≡◌, ◌≤◌, [], true, false, IfOk, MatchResult, Some, length, position, bytes_eq, codes};
ghost use Rattle.std.specs.List.{All};
ghost use Rattle.reo_syntax_laws.specs.trees_laws.Spelled.{IsSpelled};
ghost use Rattle.reo_rules.specs.Scopes.{connectors_of};
ghost use Rattle.reo_rules.specs.Rules.{rule_breaks};
ghost use Rattle.reo_rules.specs.Judged.{IsJudged};
ghost use Rattle.reo_flat.specs.Unfolding.{meaning_named, meanings_of};
ghost use Rattle.reo_flat.specs.Flat.{wiring_of_program, homes_in, nodes_of, ports_of};
ghost use Rattle.reo_flat.specs.Sizes.{is_too_many, too_many};
ghost use Rattle.reo_flat.specs.Refusals.{breaks, IsAccepted, IsRefused};
ghost use Rattle.reo_flat.specs.flatten_laws.Plain.{HasPlainNames};
ghost use Rattle.reo_unfold.specs.Ground.{IsGround};
ghost use Rattle.reo_unfold.specs.Fits.{AreFit};
ghost use Rattle.reo_flatten.specs.Parts.{IsParts};

use crate::judging::judge;
use crate::last::{Flat, Parts, close};
use crate::nodes::{Wired, all_joints, all_own};
use crate::unfolded::{UnfoldedMain, begin, ends_at};
use reo_flat::{circuits_are_small, counts_are_channels, nodes_are_distinct, nodes_are_served};
use reo_rules::FlatFault;
use reo_trees::{Declaration, Program};
use reo_unfold::{Ground, Unfolded, connector_at, ground_of};
use std::alloc::Global;

/// The most uses to which a program may unfold.
const MOST_USES: u32 = 65_536;

/// How deep uses may be nested.
const DEEPEST: u32 = 64;

/// The most primitives of a circuit.
const MOST_PRIMITIVES: usize = 4_096;

/// Whether the connector of this number, which is `main`, has more than 65,536 uses, uses nested
/// more than 64 deep, or more than 4,096 ports and channels. It is not unfolded for that.
fn is_large(declarations: &[Declaration], ground: &Ground, number: usize) -> bool
    requires ground { IsGround declarations.now ground.now }
    requires main { position (bytes_eq (codes "main")) ground.now.connectors ≡ Some number }
    ensures large { result ≡ true → is_too_many declarations.now (meaning_named
        (meanings_of declarations.now) (codes "main")) ≡ true }
    ensures small { result ≡ false → let m = meaning_named (meanings_of declarations.now)
        (codes "main") in (m.uses ≤ 65536) × (m.depth ≤ 64) }
{
    counts_are_channels();
    let sizes = *ground.sizes.at(number);
    if MOST_USES < sizes.uses {
        return true;
    }
    if DEEPEST < sizes.depth {
        return true;
    }
    let main = connector_at(declarations, ground.stands.at(number).place);
    let ports = main.parameters.len();
    if MOST_PRIMITIVES < ports {
        return true;
    }
    MOST_PRIMITIVES < ports + sizes.placed as usize
}

/// What the flat circuit of a program is made from that breaks no rule on its text, and whose
/// `main` is the connector of this number, with few uses; or why it comes to too much.
fn parts_of(
    alloc: Global,
    declarations: &[Declaration],
    ground: &Ground,
    number: usize,
) -> Result<Parts, FlatFault>
    requires rules { rule_breaks declarations.now ≡ [] }
    requires names { All HasPlainNames (connectors_of declarations.now) }
    requires ground { IsGround declarations.now ground.now }
    requires fit { AreFit declarations.now }
    requires main { position (bytes_eq (codes "main")) ground.now.connectors ≡ Some number }
    requires small { let m = meaning_named (meanings_of declarations.now) (codes "main") in
        (m.uses ≤ 65536) × (m.depth ≤ 64) }
    ensures judged { IsJudged (too_many declarations.now) result }
    ensures parts { IfOk result (IsParts declarations.now) }
{
    nodes_are_distinct();
    nodes_are_served();
    circuits_are_small();
    let UnfoldedMain { ports, made } = begin(alloc, declarations, ground, number)?;
    let ends = ends_at(alloc, &made)?;
    let Unfolded {
        nodes,
        mut kinds,
        ends: _,
    } = made;
    let first = kinds.len();
    all_own(&ends, &mut kinds)?;
    if MOST_PRIMITIVES < kinds.len() {
        return Err(FlatFault::TooMany);
    }
    let Wired { joints, homes } = all_joints(alloc, &ends, first)?;
    Ok(Parts {
        kinds,
        ports,
        joints,
        nodes,
        homes,
    })
}

/// The flat circuit of a program as a text says it.
///
/// # Errors
///
/// The first break of the first rule that is broken, in the order of the variants of
/// [`FlatFault`]. `NoMemory`: out of memory.
pub fn flatten(alloc: Global, program: &Program) -> Result<Flat, FlatFault>
    requires spelled { IsSpelled program.now }
    requires names { All HasPlainNames (connectors_of program.now.declarations) }
    ensures exact { MatchResult result (λ flat. IsAccepted program.now) (IsRefused program.now) }
    ensures circuit { IfOk result (λ flat. flat.circuit
        ≡ wiring_of_program program.now.declarations) }
    ensures ports { IfOk result (λ flat. flat.ports.list ≡ ports_of program.now.declarations) }
    ensures nodes { IfOk result (λ flat. flat.nodes ≡ nodes_of program.now.declarations) }
    ensures homes { IfOk result (λ flat. flat.homes ≡ homes_in program.now.declarations) }
{
    judge(alloc, program)?;
    let declarations = program.declarations.as_slice();
    let ground = ground_of(alloc, declarations)?;
    match ground.connectors.find(b"main") {
        Some(number) => {
            if is_large(declarations, &ground, number) {
                return Err(FlatFault::TooMany);
            }
            let parts = parts_of(alloc, declarations, &ground, number)?;
            close(alloc, program, parts)
        }
        None => Err(FlatFault::NoMain),
    }
}
