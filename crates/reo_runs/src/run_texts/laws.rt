//! What a run writes is the text of a trace.
ghost use Rattle.reo_runs.specs.run_texts.Laws.{PortsAreTold, RunsAreTraceTexts};

use reo_flat::{
    circuits_are_made, nodes_are_distinct, nodes_have_types, ports_differ, primitives_fit,
    types_are_valid,
};
use reo_net_base::order_exists;
use reo_values::item_test_is_exact;
use reo_weights::causes_are_small;

/// In a program as a text says it that is accepted, the names of ports are names, no two of them
/// alike, and their types are such as a program may have.
pub fn ports_are_told()
    ensures { PortsAreTold }
{
    ports_differ();
    types_are_valid();
}

/// On the circuit of such a program, what a run of any components writes is the text of a trace,
/// the one with its lines and its ending.
pub fn runs_are_trace_texts()
    ensures { RunsAreTraceTexts }
{
    circuits_are_made();
    primitives_fit();
    nodes_have_types();
    nodes_are_distinct();
    order_exists();
    item_test_is_exact();
    causes_are_small();
}
