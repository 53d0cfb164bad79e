//! Going on in a branch.
ghost use Rattle.std.specs.Prelude.{◌≡◌, ◌<◌, ℕ, List, [], false, IfOk, IsTrue, cond, length};
ghost use Rattle.reo_net_base.specs.Net.{net_of};
ghost use Rattle.reo_refute_live.specs.Judged.{IsJudged, allowed_in};
ghost use Rattle.reo_refute_live.specs.support.Families.{family_of};
ghost use Rattle.reo_refute_live.specs.OpenBranch.{open_in, IsOpen, IsClosed};
ghost use Rattle.reo_refute.specs.next.Next.{LeadsOn};
ghost use Rattle.reo_refute.specs.proving.Making.{AreFew, LeadsTo};

use reo_net_base::Primitive;
use reo_refute_base::LogLine;
use reo_refute_live::{Judged, OpenBranch};
use reo_values::NoMemory;
use std::alloc::Global;

/// Goes on in a branch by a line that leads on: whether a branch is open behind it. `NoMemory` is
/// out of memory.
pub(crate) fn go_on<P: Primitive>(
    alloc: Global,
    judged: &Judged<'_, P>,
    live: &mut OpenBranch,
    line: LogLine,
) -> Result<bool, NoMemory>
    requires judged { IsJudged (net_of P.behaviour judged.now.circuit.now) judged.now }
    requires few { AreFew judged.now.lists.now }
    requires open { IsOpen judged.now.lists.now live.old }
    requires leads { LeadsOn (net_of P.behaviour judged.now.circuit.now) judged.now.lists.now
        (allowed_in (net_of P.behaviour judged.now.circuit.now) judged.now)
        (family_of live.old.table) line }
    ensures open { IfOk result (λ more. IsTrue more → IsOpen judged.now.lists.now live.new) }
    ensures closed { IfOk result (λ more. more ≡ false → IsClosed judged.now.lists.now live.new) }
    ensures leads { let net = net_of P.behaviour judged.now.circuit.now in
        IfOk result (λ more. LeadsTo net judged.now.lists.now (allowed_in net judged.now)
        (open_in live.old) (cond more (open_in live.new) []) line) }
{
    match line {
        LogLine::Drop(joint, value, _) => {
            live.clear(judged.lists, joint, value)?;
            Ok(true)
        }
        LogLine::Split(joint) => {
            live.split(alloc, judged.lists, joint)?;
            Ok(true)
        }
        LogLine::Empty(_) => {
            let more = live.close(judged.lists)?;
            Ok(more)
        }
        LogLine::At(_) => Ok(false),
    }
}
