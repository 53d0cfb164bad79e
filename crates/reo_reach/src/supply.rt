//! The items that can stand at each joint.
ghost use Rattle.std.specs.Prelude.{◌≡◌, ◌<◌, [], IfOk, length, replicate, false};
ghost use Rattle.reo_values.specs.declared.value.Value.{Value as Item};
ghost use Rattle.reo_reach.specs.Supplied.{items_at, is_wide, supplied_of, AreShort};
ghost use Rattle.reo_reach.specs.Added.{renewed};

use crate::stock::is_full;
use reo_values::{List, NoMemory, Value, empty_lists};
use std::alloc::Global;
use std::marker::Model;

/// The items that can stand at each joint of a circuit, and the joints that are wide.
///
/// Contracts see a list and a mark for each joint.
#[derive(Drop)]
pub struct Supply {
    items: Vec<List<Value>>,
    wide: Vec<bool>,
}

impl Model for Supply {
    ghost use Rattle.std.specs.Prelude.{◌≡◌, length};
    ghost use Rattle.reo_values.specs.contracts.value.Value as item;
    ghost use Rattle.reo_reach.specs.Supplied.{Supplied, supplied_code, supplied_of};

    ghost Value = { Supplied };

    ghost coded = { supplied_code item.the_row.coded };

    ghost view = { λ s. supplied_of s.items.items s.wide.items };

    ghost invariant = { λ s. length s.wide.items ≡ length s.items.items };
}

/// No mark at so many joints.
fn no_marks(alloc: Global, count: usize) -> Result<Vec<bool>, NoMemory>
    ensures { IfOk result (λ marks. length marks.items ≡ count) }
{
    match vec![in alloc; false; count] {
        Ok(marks) => Ok(marks),
        Err(_) => Err(NoMemory),
    }
}

impl Supply {
    /// A supply for so many joints, of which nothing is known. `NoMemory` is out of memory.
    pub fn unknown(alloc: Global, joints: usize) -> Result<Supply, NoMemory>
        ensures lists { IfOk result (λ supply. length supply.items ≡ joints) }
        ensures marks { IfOk result (λ supply. length supply.wide ≡ joints) }
        ensures short { IfOk result AreShort }
    {
        let lists = empty_lists(alloc, joints)?;
        let items = lists.into_vec();
        let wide = no_marks(alloc, joints)?;
        Ok(Supply { items, wide })
    }

    /// The items at a joint: at a clear joint exactly those that can stand there, each once. This
    /// takes no memory.
    pub fn items(&self, joint: usize) -> &List<Value>
        requires { joint < length self.now.items }
        ensures { result.now ≡ items_at self.now joint }
    {
        &self.items[joint]
    }

    /// Whether a joint is wide: more than 256 items can stand there. This takes no memory.
    pub fn is_wide(&self, joint: usize) -> bool
        requires { joint < length self.now.items }
        ensures { result ≡ is_wide self.now joint }
    {
        self.wide[joint]
    }

    /// The items at each joint. This takes no memory.
    pub fn lists(&self) -> &[List<Value>]
        ensures { result.now ≡ self.now.items }
    {
        &self.items
    }

    /// Makes this the list of a joint, which is wide where there are more than 256 items.
    pub(crate) fn put(&mut self, joint: usize, items: List<Value>)
        requires { joint < length self.old.items }
        ensures { self.new ≡ renewed self.old joint items }
    {
        self.wide[joint] = is_full(items.as_slice());
        self.items[joint] = items;
    }
}
