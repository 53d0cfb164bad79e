//! Reading scripts.
ghost use Rattle.std.specs.Prelude.{◌≡◌, ◌<◌, ◌^◌, length, map, IfOk, Result};
ghost use Rattle.reo_net_base.specs.declared.port.Port.{Port as APort};
ghost use Rattle.reo_script.specs.declared.scripts.action.Script.{Script as AScript};
ghost use Rattle.reo_script.specs.declared.scripts.fault.ScriptFault.{ScriptFault as AFault};
ghost use Rattle.reo_script.specs.scripts.ScriptAnswers.{Answers, IsRead, IsThis};
ghost use Rattle.reo_script.specs.scripts.ScriptRules.{breaks};
ghost use Rattle.reo_script.specs.Places.{ArePortsOf, IsJudgedBy};

use crate::judging::{judge_items, judge_names, judge_ways};
use crate::making::components_for;
use crate::places::places_of;
use crate::scripts::{ComponentForm, Script, ScriptFault};
use crate::sharing::judge_sharing;
use crate::texts::said;
use reo_net_base::{Port, Ports};
use reo_rules::Names;
use reo_values::NoMemory;
use std::alloc::Global;

/// The names of ports.
fn names_of(alloc: Global, ports: &[Port]) -> Result<Names, NoMemory>
    requires { ArePortsOf ports.now }
    ensures { IfOk result (λ names. names ≡ map (λ (p : APort). p.name) ports.now) }
{
    let mut names = Names::new(alloc);
    for port in ports {
        names.note(alloc, port.name.as_slice())?;
    }
    Ok(names)
}

/// Whether components keep the rules on ports, or the first break of the first rule that is
/// broken.
fn judge(
    alloc: Global,
    names: &Names,
    ports: &[Port],
    forms: &[ComponentForm],
) -> Result<(), ScriptFault>
    requires { names.now ≡ map (λ (p : APort). p.name) ports.now }
    ensures { IsJudgedBy (breaks ports.now forms.now) result }
{
    let places = places_of(alloc, forms)?;
    judge_names(alloc, names, ports, places.as_slice())?;
    judge_ways(alloc, names, ports, places.as_slice())?;
    judge_items(names, ports, places.as_slice())?;
    judge_sharing(alloc, forms)
}

/// The answer to a text, for these ports.
fn answer_of(alloc: Global, text: &[u8], ports: &[Port]) -> Result<Script, ScriptFault>
    requires few { length text.now < 2 ^ 32 }
    requires ports { ArePortsOf ports.now }
    ensures { IsRead text.now ports.now result }
{
    let forms = said(alloc, text)?;
    let names = names_of(alloc, ports)?;
    judge(alloc, &names, ports, forms.as_slice())?;
    let components = components_for(alloc, &names, ports, forms.as_slice())?;
    Ok(Script { components })
}

/// The script that a text says for these ports. Otherwise the first of these, each exactly where it
/// holds: the fault of its tokens; `Syntax` or `TooDeep`, whichever stands first; then over the
/// whole script, in text order, `NoPort`, `WrongWay`, `ItemOutside` and `Shared`. `NoMemory` means
/// out of memory.
pub fn read_script(alloc: Global, text: &[u8], ports: &Ports) -> Result<Script, ScriptFault>
    requires few { length text.now < 2 ^ 32 }
    requires ports { ArePortsOf ports.now.list }
    ensures read { IsRead text.now ports.now.list result }
    ensures only { (answer : Result AScript AFault) → Answers text.now ports.now.list answer
        → IsThis answer result }
{
    answer_of(alloc, text, ports.list.as_slice())
}
