//! The circuit text of stages in a row.
ghost use Rattle.std.specs.Prelude.{◌≡◌, ◌++◌, ◌+◌, ◌-◌, ◌<◌, ◌≤◌, IfOk, OnOk};
ghost use Rattle.std.specs.List.{flat_map, range_with_len};
ghost use Rattle.reo_gen.specs.Circuits.{stage_text, output_text, head_text, link_line, source_of, sink_of, use_line, circuit_text};

use crate::name::append_numbered;
use reo_values::{Bytes, NoMemory};
use std::alloc::Global;

/// Adds the type, and the connector that is used over and over.
#[tactic(auto, unfolding(crate::specs::Circuits::stage_text))]
fn append_stage(text: &mut Bytes) -> Result<(), NoMemory>
    ensures { OnOk result (text.new ≡ text.old ++ stage_text) }
{
    text.append(b"type t = int 0..999;\n")?;
    text.append(b"connector stage(in a: t, out b: t, out c: t) {\n")?;
    text.append(b"  node x: t; node y: t; node k: t; node p: t; node q: t;\n")?;
    text.append(
        b"  lossy a x; lossy a y; sync x p; sync x k; sync y q; sync y k; syncdrain a k;\n",
    )?;
    text.append(b"  fifo1 p b; fifo1 q c;\n")?;
    text.append(b"}\n")
}

/// Adds an output among the parameters.
fn append_output(alloc: Global, text: &mut Bytes, number: u32) -> Result<(), NoMemory>
    ensures { OnOk result (text.new ≡ text.old ++ output_text number) }
{
    text.append(b", out ")?;
    append_numbered(alloc, text, b"o", number)?;
    text.append(b": t")
}

/// Adds the outputs from 0 to the number of stages.
fn append_outputs(alloc: Global, text: &mut Bytes, stages: u32) -> Result<(), NoMemory>
    requires { stages ≤ 256 }
    ensures { OnOk result
        (text.new ≡ text.old ++ flat_map output_text (range_with_len 0 (stages + 1))) }
{
    for number in 0..stages + 1 {
        append_output(alloc, text, number)?;
    }
    Ok(())
}

/// Adds the first line of main.
fn append_head(alloc: Global, text: &mut Bytes, stages: u32) -> Result<(), NoMemory>
    requires { stages ≤ 256 }
    ensures { OnOk result (text.new ≡ text.old ++ head_text stages) }
{
    text.append(b"connector main(in i: t")?;
    append_outputs(alloc, text, stages)?;
    text.append(b") {\n")
}

/// Adds the line of a node between two stages.
fn append_link(alloc: Global, text: &mut Bytes, number: u32) -> Result<(), NoMemory>
    ensures { OnOk result (text.new ≡ text.old ++ link_line number) }
{
    text.append(b"  node ")?;
    append_numbered(alloc, text, b"s", number)?;
    text.append(b": t;\n")
}

/// Adds the lines of the nodes between stages.
fn append_links(alloc: Global, text: &mut Bytes, stages: u32) -> Result<(), NoMemory>
    requires { 1 ≤ stages }
    ensures { OnOk result
        (text.new ≡ text.old ++ flat_map link_line (range_with_len 1 (stages - 1))) }
{
    for number in 1..stages {
        append_link(alloc, text, number)?;
    }
    Ok(())
}

/// Adds the node from which a stage takes.
fn append_source(alloc: Global, text: &mut Bytes, number: u32) -> Result<(), NoMemory>
    requires { 1 ≤ number }
    ensures { OnOk result (text.new ≡ text.old ++ source_of number) }
{
    if number == 1 {
        text.append(b"i")
    } else {
        append_numbered(alloc, text, b"s", number - 1)
    }
}

/// Adds the node to which a stage gives on.
fn append_sink(alloc: Global, text: &mut Bytes, stages: u32, number: u32) -> Result<(), NoMemory>
    ensures { OnOk result (text.new ≡ text.old ++ sink_of stages number) }
{
    if number == stages {
        append_numbered(alloc, text, b"o", 0)
    } else {
        append_numbered(alloc, text, b"s", number)
    }
}

/// Adds the line of a stage.
fn append_use(alloc: Global, text: &mut Bytes, stages: u32, number: u32) -> Result<(), NoMemory>
    requires { 1 ≤ number }
    ensures { OnOk result (text.new ≡ text.old ++ use_line stages number) }
{
    text.append(b"  use stage(")?;
    append_source(alloc, text, number)?;
    text.append(b", ")?;
    append_sink(alloc, text, stages, number)?;
    text.append(b", ")?;
    append_numbered(alloc, text, b"o", number)?;
    text.append(b");\n")
}

/// Adds the lines of all stages.
fn append_uses(alloc: Global, text: &mut Bytes, stages: u32) -> Result<(), NoMemory>
    requires { stages ≤ 256 }
    ensures { OnOk result
        (text.new ≡ text.old ++ flat_map (use_line stages) (range_with_len 1 stages)) }
{
    for number in 1..stages + 1 {
        append_use(alloc, text, stages, number)?;
    }
    Ok(())
}

/// The circuit text of so many stages. `NoMemory`: out of memory.
#[tactic(auto, unfolding(crate::specs::Circuits::circuit_text))]
pub(crate) fn circuit_of(alloc: Global, stages: u32) -> Result<Bytes, NoMemory>
    requires some { 1 ≤ stages }
    requires few { stages ≤ 256 }
    ensures { IfOk result (λ text. text ≡ circuit_text stages) }
{
    let mut text = Bytes::new(alloc);
    append_stage(&mut text)?;
    append_head(alloc, &mut text, stages)?;
    append_links(alloc, &mut text, stages)?;
    append_uses(alloc, &mut text, stages)?;
    text.append(b"}\n")?;
    Ok(text)
}
