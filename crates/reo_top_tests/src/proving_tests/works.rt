//! Circuits and scripts that are read, and their runs.
use reo_command::read_run;
use reo_io::{MemoryFiles, MemorySink, Named};
use reo_proving::prove_run;
use reo_runner::Limits;
use reo_trace::{Ending, WriteFault};
use reo_values::{Bytes, List, NoMemory};
use std::alloc::Global;
use std::test::Fail;

/// The texts of a circuit and of a script, and how far their run may go.
#[derive(Clone, Copy)]
pub struct Work {
    pub circuit: &'static str,
    pub script: &'static str,
    pub budget: u64,
    pub rounds: u64,
}

/// One channel, and an item that goes through it.
pub const ONE: Work = Work {
    circuit: "connector main(in a: int 0..9, out b: int 0..9) { sync a b; }",
    script: "component p { write a 3; } component q { take b; }",
    budget: 100_000,
    rounds: 100_000,
};

/// A drain of which one end alone is offered something.
pub const HALF: Work = Work {
    circuit: "connector main(in a: unit, in b: unit) { syncdrain a b; }",
    script: "component p { write a unit; }",
    budget: 100_000,
    rounds: 100_000,
};

/// Four ports that flow in turn, ten times each.
pub const TURNS: Work = Work {
    circuit: "connector main(in a: int 0..9, in b: int 0..9, in c: int 0..9, in d: int 0..9) { \
        node w: unit; node x: unit; node y: unit; node z: unit; fifo1 z w with unit; fifo1 w x; \
        fifo1 x y; fifo1 y z; syncdrain a w; syncdrain b x; syncdrain c y; syncdrain d z; }",
    script: "component pa { repeat 10 { write a 1; } } component pb { repeat 10 { write b 1; } } \
        component pc { repeat 10 { write c 1; } } component pd { repeat 10 { write d 1; } }",
    budget: 100_000,
    rounds: 100_000,
};

fn named(alloc: Global, name: &str, text: &str) -> Result<Named, NoMemory> {
    let name = Bytes::from_slice(alloc, name.as_bytes())?;
    let bytes = Bytes::from_slice(alloc, text.as_bytes())?;
    Ok(Named { name, bytes })
}

/// The files `C` and `S` of a work.
fn files_of(alloc: Global, work: &Work) -> Result<MemoryFiles, NoMemory> {
    let mut files = List::new(alloc);
    files.push(named(alloc, "C", work.circuit)?)?;
    files.push(named(alloc, "S", work.script)?)?;
    MemoryFiles::new(alloc, files, List::new(alloc))
}

/// Runs a work, and writes it with its logs. Nothing is answered where its texts are refused.
pub fn prove_work(
    alloc: Global,
    work: &Work,
    sink: &mut MemorySink,
) -> Result<Option<Result<Ending, WriteFault>>, Fail> {
    let mut files = files_of(alloc, work)?;
    let limits = Limits {
        budget: work.budget.clamp(1, 1_000_000_000),
        rounds: work.rounds.clamp(1, 1_000_000_000),
    };
    match read_run(alloc, b"C", b"S", &mut files) {
        Ok(read) => Ok(Some(prove_run(alloc, read.flat, read.script, limits, sink))),
        Err(_) => Ok(None),
    }
}

/// A sink with room for any of these texts.
pub fn open_sink(alloc: Global) -> Result<MemorySink, NoMemory> {
    MemorySink::new(alloc, 1 << 20, 1 << 20, List::new(alloc))
}
