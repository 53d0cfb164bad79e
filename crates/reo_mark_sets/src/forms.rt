//! Forms that sides have.
ghost use Rattle.std.specs.Prelude.{◌≡◌};
ghost use Rattle.reo_mark_sets.specs.Standing.{is_usual};

use reo_net_base::{Form, Table};

/// Whether a form has a table of as many ends as it has itself.
pub fn is_usual(form: Form) -> bool
    ensures { result ≡ is_usual form }
{
    match form {
        Form::Single(table) => matches!(table, Table::Ready | Table::Resting),
        Form::Double(table) => !matches!(table, Table::Ready | Table::Resting),
        Form::Merging(_) | Form::Replicating(_) => true,
    }
}
