//! The kinds as primitives.
ghost use Rattle.reo_kinds.specs.Kinds.{behaviour_of, settled_kind};
ghost use Rattle.reo_kinds.specs.KindLaws.{kind_lawful, kind_shape, kind_alike, kind_quiet};
ghost use Rattle.reo_kinds.specs.Telling.{told_form, front_item, lasting_of};
ghost use Rattle.reo_kinds.specs.TellingLaws.{kind_form, kind_lets_in, kind_carries, kind_front, kind_origin, kind_keeps_nothing, kind_lasting, kind_tables};

use crate::ends::kind_ends;
use crate::form::form_of;
use crate::given::{Given, given_by};
use crate::kind::Kind;
use crate::settle::settle;
use crate::{rule, telling};
use reo_net_base::{Chosen, Form, Mark, Primitive};
use reo_values::{Kindred, NoMemory, Value, copy, same_item};
use std::alloc::Global;

impl Primitive for Kind {
    ghost behaviour = { behaviour_of };

    ghost settled = { settled_kind };

    ghost form = { told_form };

    ghost front = { front_item };

    ghost lasting = { lasting_of };

    fn ends(&self) -> usize {
        kind_ends(self).count()
    }

    fn sides(&self) -> usize {
        kind_ends(self).sides()
    }

    fn side_of(&self, end: usize) -> usize {
        kind_ends(self).side_of(end)
    }

    fn takes_in(&self, end: usize) -> bool {
        kind_ends(self).takes_in(end)
    }

    fn leads(&self, side: usize) -> bool {
        form_of(self, side).leads()
    }

    fn rows(&self, side: usize) -> usize {
        form_of(self, side).rows()
    }

    fn mark(&self, side: usize, row: usize, end: usize) -> Mark {
        form_of(self, side).mark(row, end)
    }

    fn class(&self, side: usize, row: usize, turn: u64) -> usize {
        form_of(self, side).class(row, turn)
    }

    fn groups(&self, side: usize) -> usize {
        form_of(self, side).groups()
    }

    fn group(&self, side: usize, row: usize) -> usize {
        form_of(self, side).group(row)
    }

    fn common(&self, side: usize, group: usize, end: usize) -> Mark {
        form_of(self, side).common(group, end)
    }

    fn apart(&self, side: usize, row: usize) -> Option<usize> {
        form_of(self, side).apart(row)
    }

    fn from(&self, _side: usize, row: usize, _end: usize) -> Option<usize> {
        kind_ends(self).from(row)
    }

    fn passes(&self, _side: usize, row: usize, _end: usize, item: &Value) -> bool {
        rule::lets_in(self, row, item)
    }

    fn gives(
        &self,
        alloc: Global,
        _side: usize,
        _row: usize,
        _end: usize,
        taken: Option<&Value>,
    ) -> Result<Value, NoMemory> {
        match given_by(self, taken) {
            Given::Same(item) => copy(item),
            Given::Image(map, item) => rule::image(alloc, map, item),
            Given::Nothing => unreachable!(),
        }
    }

    fn agrees(
        &self,
        _side: usize,
        _row: usize,
        _end: usize,
        taken: Option<&Value>,
        item: &Value,
    ) -> bool {
        match given_by(self, taken) {
            Given::Same(own) => same_item(own, item),
            Given::Image(map, own) => rule::is_image(map, own, item),
            Given::Nothing => false,
        }
    }

    fn settle(&mut self, rows: Chosen, taken: Option<Value>) {
        settle(self, rows, taken);
    }

    fn form(&self, side: usize) -> Option<Form> {
        Some(form_of(self, side))
    }

    fn varies(&self, side: usize) -> bool {
        telling::varies(self, side)
    }

    fn is_open(&self, _side: usize) -> bool {
        !matches!(self, Kind::Filter(_))
    }

    fn keeps(&self) -> bool {
        telling::keeps(self)
    }

    fn carries(&self) -> bool {
        !matches!(self, Kind::Map(_))
    }

    fn front(&self) -> Option<&Value> {
        match self {
            Kind::Writer(port) => port.offer.as_ref(),
            Kind::Store(buffer) | Kind::Shift(buffer) => buffer.front(),
            Kind::Variable(held) => held.as_ref(),
            _ => None,
        }
    }

    fn origin(&self) -> Option<&Kindred> {
        match self {
            Kind::Writer(port) => Some(&port.kindred),
            _ => None,
        }
    }

    ghost lawful = { kind_lawful };

    ghost settled_shape = { kind_shape };

    ghost settled_alike = { kind_alike };

    ghost quiet = { kind_quiet };

    ghost has_form = { kind_form };

    ghost lets_all_in = { kind_lets_in };

    ghost carries_on = { kind_carries };

    ghost gives_front = { kind_front };

    ghost gives_origin = { kind_origin };

    ghost keeps_nothing = { kind_keeps_nothing };

    ghost settled_lasting = { kind_lasting };

    ghost settled_tables = { kind_tables };
}
