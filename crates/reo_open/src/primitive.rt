//! What stands in open circuits, as primitives.
ghost use Rattle.reo_open.specs.Opens.{open_behaviour, open_settled, open_form, open_front, open_lasting};
ghost use Rattle.reo_open.specs.OpenLaws.{open_lawful, open_shape, open_alike, open_quiet, open_has_form, open_lets_all_in, open_carries, open_gives_front, open_gives_origin, open_keeps_nothing, open_lasts, open_tables};

use crate::opens::Open;
use reo_net_base::{Chosen, Form, Mark, Primitive};
use reo_values::{Kindred, NoMemory, Value};
use std::alloc::Global;

impl Primitive for Open {
    ghost behaviour = { open_behaviour };

    ghost settled = { open_settled };

    ghost form = { open_form };

    ghost front = { open_front };

    ghost lasting = { open_lasting };

    fn ends(&self) -> usize {
        match self {
            Open::Border(_) => 1,
            Open::Inner(kind) => kind.ends(),
        }
    }

    fn sides(&self) -> usize {
        match self {
            Open::Border(_) => 1,
            Open::Inner(kind) => kind.sides(),
        }
    }

    fn side_of(&self, end: usize) -> usize {
        match self {
            Open::Border(_) => 0,
            Open::Inner(kind) => kind.side_of(end),
        }
    }

    fn takes_in(&self, end: usize) -> bool {
        match self {
            Open::Border(gate) => gate.takes,
            Open::Inner(kind) => kind.takes_in(end),
        }
    }

    fn leads(&self, side: usize) -> bool {
        match self {
            Open::Border(_) => false,
            Open::Inner(kind) => kind.leads(side),
        }
    }

    fn rows(&self, side: usize) -> usize {
        match self {
            Open::Border(gate) => gate.allowed.count(),
            Open::Inner(kind) => kind.rows(side),
        }
    }

    fn mark(&self, side: usize, row: usize, end: usize) -> Mark {
        match self {
            Open::Border(gate) => gate.allowed.mark(row),
            Open::Inner(kind) => kind.mark(side, row, end),
        }
    }

    fn class(&self, side: usize, row: usize, turn: u64) -> usize {
        match self {
            Open::Border(gate) => gate.allowed.class(row),
            Open::Inner(kind) => kind.class(side, row, turn),
        }
    }

    fn groups(&self, side: usize) -> usize {
        match self {
            Open::Border(gate) => gate.allowed.count(),
            Open::Inner(kind) => kind.groups(side),
        }
    }

    fn group(&self, side: usize, row: usize) -> usize {
        match self {
            Open::Border(_) => row,
            Open::Inner(kind) => kind.group(side, row),
        }
    }

    fn common(&self, side: usize, group: usize, end: usize) -> Mark {
        match self {
            Open::Border(gate) => gate.allowed.mark(group),
            Open::Inner(kind) => kind.common(side, group, end),
        }
    }

    fn apart(&self, side: usize, row: usize) -> Option<usize> {
        match self {
            Open::Border(_) => None,
            Open::Inner(kind) => kind.apart(side, row),
        }
    }

    fn from(&self, side: usize, row: usize, end: usize) -> Option<usize> {
        match self {
            Open::Border(_) => None,
            Open::Inner(kind) => kind.from(side, row, end),
        }
    }

    fn passes(&self, side: usize, row: usize, end: usize, item: &Value) -> bool {
        match self {
            Open::Border(_) => true,
            Open::Inner(kind) => kind.passes(side, row, end, item),
        }
    }

    fn gives(
        &self,
        alloc: Global,
        side: usize,
        row: usize,
        end: usize,
        taken: Option<&Value>,
    ) -> Result<Value, NoMemory> {
        match self {
            Open::Border(_) => Ok(Value::Unit),
            Open::Inner(kind) => kind.gives(alloc, side, row, end, taken),
        }
    }

    fn agrees(
        &self,
        side: usize,
        row: usize,
        end: usize,
        taken: Option<&Value>,
        item: &Value,
    ) -> bool {
        match self {
            Open::Border(_) => matches!(item, Value::Unit),
            Open::Inner(kind) => kind.agrees(side, row, end, taken, item),
        }
    }

    fn settle(&mut self, rows: Chosen, taken: Option<Value>) {
        match self {
            Open::Border(_) => {}
            Open::Inner(kind) => kind.settle(rows, taken),
        }
    }

    fn form(&self, side: usize) -> Option<Form> {
        match self {
            Open::Border(_) => None,
            Open::Inner(kind) => kind.form(side),
        }
    }

    fn varies(&self, side: usize) -> bool {
        match self {
            Open::Border(_) => true,
            Open::Inner(kind) => kind.varies(side),
        }
    }

    fn is_open(&self, side: usize) -> bool {
        match self {
            Open::Border(_) => true,
            Open::Inner(kind) => kind.is_open(side),
        }
    }

    fn keeps(&self) -> bool {
        match self {
            Open::Border(_) => false,
            Open::Inner(kind) => kind.keeps(),
        }
    }

    fn carries(&self) -> bool {
        match self {
            Open::Border(_) => true,
            Open::Inner(kind) => kind.carries(),
        }
    }

    fn front(&self) -> Option<&Value> {
        match self {
            Open::Border(_) => None,
            Open::Inner(kind) => kind.front(),
        }
    }

    fn origin(&self) -> Option<&Kindred> {
        match self {
            Open::Border(_) => None,
            Open::Inner(kind) => kind.origin(),
        }
    }

    ghost lawful = { open_lawful };

    ghost settled_shape = { open_shape };

    ghost settled_alike = { open_alike };

    ghost quiet = { open_quiet };

    ghost has_form = { open_has_form };

    ghost lets_all_in = { open_lets_all_in };

    ghost carries_on = { open_carries };

    ghost gives_front = { open_gives_front };

    ghost gives_origin = { open_gives_origin };

    ghost keeps_nothing = { open_keeps_nothing };

    ghost settled_lasting = { open_lasts };

    ghost settled_tables = { open_tables };
}
