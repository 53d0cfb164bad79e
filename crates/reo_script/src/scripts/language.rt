//! The languages of script texts and of event lines.
use reo_grammar::Language;

/// The language of script texts: whole texts stand for lists of components.
pub struct Scripts;

impl Language for Scripts {
    ghost use Rattle.std.specs.Prelude.{refl, List};
    ghost use Rattle.reo_script.specs.declared.scripts.forms.ComponentForm.{ComponentForm};
    ghost use Rattle.reo_script.specs.scripts.ScriptForms.{ScriptRule, script_tree, script_rules, script_form};
    ghost use Rattle.reo_script.specs.scripts.Table.{script_table};

    ghost Rule = { ScriptRule };

    ghost tree_of = { script_tree };

    ghost Tree = { List ComponentForm };

    ghost rules = { script_rules };

    ghost form = { script_form };

    ghost table = { script_table };

    ghost productive = { refl };

    ghost sighted = { refl };
}

/// The language of event lines: a line stands for an event, or for none.
pub struct Events;

impl Language for Events {
    ghost use Rattle.std.specs.Prelude.{refl};
    ghost use Rattle.reo_script.specs.declared.scripts.event.EventForm.{EventForm as AnEventForm};
    ghost use Rattle.reo_trees.specs.Forms.{Rule as CircuitRule, tree_of as tree_of_rule};
    ghost use Rattle.reo_trees.specs.Rules.{circuit_rules};
    ghost use Rattle.reo_trees.specs.Table.{circuit_table};
    ghost use Rattle.reo_script.specs.scripts.Events.{event_form};

    ghost Rule = { CircuitRule };

    ghost tree_of = { tree_of_rule };

    ghost Tree = { AnEventForm };

    ghost rules = { circuit_rules };

    ghost form = { event_form };

    ghost table = { circuit_table };

    ghost productive = { refl };

    ghost sighted = { refl };
}
