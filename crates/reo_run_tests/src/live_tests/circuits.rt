//! How the tests come to circuits that are talked to.
ghost use Rattle.std.specs.Prelude.{◌≡◌, IfSome, false};
ghost use Rattle.std.specs.List.{All};
ghost use Rattle.reo_syntax_laws.specs.trees_laws.Spelled.{IsSpelled};
ghost use Rattle.reo_rules.specs.Scopes.{connectors_of};
ghost use Rattle.reo_flat.specs.flatten_laws.Plain.{HasPlainNames};
ghost use Rattle.reo_kinds.specs.Kinds.{behaviour_of};
ghost use Rattle.reo_net_base.specs.Net.{net_of};
ghost use Rattle.reo_rounds.specs.Order.{HasOrder};
ghost use Rattle.reo_live.specs.base.Live.{beginning};

use reo_flat::names_are_plain;
use reo_flatten::flatten;
use reo_kinds::Kind;
use reo_live::Live;
use reo_parser::parse;
use reo_rounds::known_order;
use reo_runs::flat_ports_fit;
use reo_syntax_laws::programs_are_spelled;
use reo_trees::Program;
use std::alloc::Global;

/// The program of a short text.
fn program_of(alloc: Global, text: &[u8]) -> Option<Program>
    ensures spelled { IfSome result (λ program. IsSpelled program) }
    ensures plain { IfSome result (λ program.
        All HasPlainNames (connectors_of program.declarations)) }
{
    names_are_plain();
    programs_are_spelled();
    if 65536 <= text.len() {
        return None;
    }
    match parse(alloc, text) {
        Ok(program) => Some(program),
        Err(_) => None,
    }
}

/// The flat circuit of a short text, which has heard nothing.
pub fn live_of(alloc: Global, text: &[u8], budget: u32) -> Option<Live<Kind>>
    ensures unspent { IfSome result (λ live. live.live.stand.over ≡ false) }
    ensures lines { IfSome result (λ live. live.live.stand.lines ≡ 0) }
    ensures fresh { IfSome result (λ live. live.live ≡ beginning live.live.stand.circuit) }
    ensures order { IfSome result
        (λ live. HasOrder (net_of behaviour_of live.live.stand.circuit)) }
{
    flat_ports_fit();
    let program = program_of(alloc, text)?;
    match flatten(alloc, &program) {
        Ok(flat) => {
            known_order(&flat.circuit);
            match Live::new(alloc, flat, u64::from(budget)) {
                Ok(live) => Some(live),
                Err(_) => None,
            }
        }
        Err(_) => None,
    }
}
