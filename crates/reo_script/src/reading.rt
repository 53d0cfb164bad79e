//! Reading components.
ghost use Rattle.std.specs.Prelude.{◌≡◌, List};
ghost use Rattle.reo_grammar.specs.Grammar.{read, reads};
ghost use Rattle.reo_cursor.specs.Reading.{Gives};
ghost use Rattle.reo_terms.specs.Reading.{read_plain};
ghost use Rattle.reo_script.specs.scripts.ScriptForms.{label_form, component_form, script_form, script_rules};

use crate::actions::actions;
use crate::scripts::ComponentForm;
use reo_cursor::{Cursor, Halt};
use reo_terms::name_before;
use reo_values::{Bytes, List};
use std::alloc::Global;

/// A component's label, and the `{` behind it.
fn label(cursor: &mut Cursor, alloc: Global) -> Result<Bytes, Halt>
    ensures { Gives result cursor.new (read_plain label_form cursor.old) }
{
    cursor.expect(b"component")?;
    name_before(cursor, alloc, b"{")
}

fn component(cursor: &mut Cursor, alloc: Global, room: usize) -> Result<ComponentForm, Halt>
    ensures { Gives result cursor.new (read (reads script_rules room) component_form cursor.old) }
{
    let name = label(cursor, alloc)?;
    let actions = actions(cursor, alloc, room)?;
    Ok(ComponentForm { name, actions })
}

/// The components of a script, with rules nested at most `room` deep.
pub fn components(
    cursor: &mut Cursor,
    alloc: Global,
    room: usize,
) -> Result<List<ComponentForm>, Halt>
    ensures { Gives result cursor.new (read (reads script_rules room) script_form cursor.old) }
{
    let mut components = List::new(alloc);
    'components: while cursor.is(b"component") {
        let next = component(cursor, alloc, room)?;
        components.push(next)?;
    }
    Ok(components)
}
