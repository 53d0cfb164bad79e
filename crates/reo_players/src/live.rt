//! Actions without repeats that come to nothing.
ghost use Rattle.std.specs.Prelude.{◌≡◌, [], IfOk, MatchOption};
ghost use Rattle.std.specs.List.{flat_map};
ghost use Rattle.reo_players.specs.Written.{written};
ghost use Rattle.reo_players.specs.Counters.{IsLive, AreLive};

use reo_script::Action;
use reo_values::{List, NoMemory};
use std::alloc::Global;

/// The action without repeats in it whose list is empty, or None where its own is.
#[cycle(live)]
fn live(alloc: Global, action: Action) -> Result<Option<Action>, NoMemory>
    ensures { IfOk result
        (λ kept. MatchOption kept (written action ≡ [])
        (λ a. IsLive a × (written a ≡ written action))) }
{
    match action {
        Action::Repeat { times, body } => {
            let body = live_of(alloc, body)?;
            if times == 0 {
                return Ok(None);
            }
            if body.is_empty() {
                return Ok(None);
            }
            Ok(Some(Action::Repeat { times, body }))
        }
        other => Ok(Some(other)),
    }
}

/// The actions without repeats whose list is empty: they come to the same list.
#[cycle(live)]
pub fn live_of(alloc: Global, actions: List<Action>) -> Result<List<Action>, NoMemory>
    ensures { IfOk result
        (λ kept. AreLive kept × (flat_map written kept ≡ flat_map written actions)) }
{
    let mut kept = List::new(alloc);
    for action in actions.into_vec() {
        if let Some(action) = live(alloc, action)? {
            kept.push(action)?;
        }
    }
    Ok(kept)
}
