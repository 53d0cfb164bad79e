//! What items that are no loops stand for.
ghost use Rattle.std.specs.Prelude.{◌≡◌, ◌≤◌, ◌++◌, List, OnOk};
ghost use Rattle.reo_trees.specs.declared.items_two.FormTwo.TheVariants as forms;
ghost use Rattle.reo_trees.specs.declared.programs_two.ConnectorTwo.{ConnectorTwo as AConnector};
ghost use Rattle.reo_expand.specs.base.Expansion.{items_of};
ghost use Rattle.reo_expand.specs.base.Steps.{steps_of, none_fits, of_name};
ghost use Rattle.reo_expand.specs.base.Judged.{IsWalked};

use crate::base::{Bound, ExpandFault};
use crate::items::Walk;
use crate::items::arrays::{names_of, put_nodes};
use crate::items::copying::copied_channel;
use crate::parts::{node_name, node_names, used_name};
use reo_trees::{Channel, Index, Item, ItemForm, Ref, TypeTerm};
use reo_values::{Bytes, List};
use std::alloc::Global;

impl Walk {
    /// Adds a node, or the nodes of an array.
    pub fn node(
        &mut self,
        alloc: Global,
        bound: &[Bound],
        line: u32,
        name: &Bytes,
        size: &Option<Index>,
        term: &TypeTerm,
        out: &mut List<Item>,
    ) -> Result<(), ExpandFault>
        requires small { self.old.count ≤ 65536 }
        ensures walked { (before : List AConnector) → IsWalked self.old.count (steps_of before
            bound.now line (forms.Node name.now size.now term.now)) self.new.count result }
        ensures made { OnOk result (out.new ≡ out.old ++ items_of bound.now line (forms.Node
            name.now size.now term.now)) }
        ensures small { self.new.count ≤ 65536 }
    {
        let names = names_of(alloc, &mut self.room, bound, line, name, size)?;
        self.counted(names.len() as u32)?;
        put_nodes(alloc, &mut self.room, line, names.as_slice(), term, out)?;
        Ok(())
    }

    /// Adds a channel between two nodes.
    pub fn joined(
        &mut self,
        alloc: Global,
        bound: &[Bound],
        line: u32,
        channel: &Channel,
        first: &Ref,
        second: &Ref,
        out: &mut List<Item>,
    ) -> Result<(), ExpandFault>
        requires small { self.old.count ≤ 65536 }
        ensures walked { (before : List AConnector) → IsWalked self.old.count (steps_of before
            bound.now line (forms.Joined channel.now first.now second.now)) self.new.count result }
        ensures made { OnOk result (out.new ≡ out.old ++ items_of bound.now line (forms.Joined
            channel.now first.now second.now)) }
        ensures small { self.new.count ≤ 65536 }
    {
        let first = node_name(alloc, &mut self.room, bound, line, first)?;
        let second = node_name(alloc, &mut self.room, bound, line, second)?;
        self.counted(1)?;
        let channel = copied_channel(alloc, &mut self.room, channel)?;
        out.push(Item {
            line,
            form: ItemForm::Joined {
                channel,
                first,
                second,
            },
        })?;
        Ok(())
    }

    /// Adds a use of a connector; it is told whether no connector of its name fits.
    pub fn used(
        &mut self,
        alloc: Global,
        bound: &[Bound],
        line: u32,
        name: &Bytes,
        number: &Option<Index>,
        arguments: &[Ref],
        unfit: bool,
        out: &mut List<Item>,
    ) -> Result<(), ExpandFault>
        requires small { self.old.count ≤ 65536 }
        ensures walked { (before : List AConnector) → unfit ≡ none_fits number.now (of_name before
            name.now) → IsWalked self.old.count (steps_of before bound.now line (forms.Used
            name.now number.now arguments.now)) self.new.count result }
        ensures made { OnOk result (out.new ≡ out.old ++ items_of bound.now line (forms.Used
            name.now number.now arguments.now)) }
        ensures small { self.new.count ≤ 65536 }
    {
        let name = used_name(alloc, &mut self.room, bound, line, name, number)?;
        let arguments = node_names(alloc, &mut self.room, bound, line, arguments)?;
        if unfit {
            return Err(ExpandFault::Number { line });
        }
        self.counted(1)?;
        out.push(Item {
            line,
            form: ItemForm::Used { name, arguments },
        })?;
        Ok(())
    }
}
