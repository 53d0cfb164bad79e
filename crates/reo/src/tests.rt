//! What the process ends with, over files of the system.
use crate::ended;
use reo_io::{DiskFiles, StdSink, SureSource};
use reo_values::{Bytes, List, NoMemory};
use std::alloc::Global;
use std::fs::{self, File};
use std::io::{self, BufWriter};
use std::process::{self, ExitCode};
use std::test::Fail;

const TWO: &[u8] = b"type n = int 0..9; connector main(in a: n, out b: n, in c: n, out d: n) { \
        sync a b; sync c d; }";

const LATER: &[u8] =
    b"component p { write a 1; } component q { write c 2; } component r { take d; }";

const ALL: &[u8] = b"component p { write a 1; write c 2; } component q { take b; take d; }";

const FILTERED: &[u8] =
    b"connector main(in a: int 0..9, out b: int 0..9) { filter a b when it > 5; }";

fn words(alloc: Global, all: &[&[u8]]) -> Result<List<Bytes>, NoMemory> {
    let mut words = List::new(alloc);
    for word in all {
        words.push(Bytes::from_slice(alloc, word)?)?;
    }
    Ok(words)
}

const ONE: &[u8] = b"connector main(in a: int 0..9, out b: int 0..9) { sync a b; }";

const GIVE: &[u8] = b"component p { write a 3; } component q { take b; }";

const TRACE: &[u8] = b"round 1: a!3 b?3 | 0 0 0\ndone after 1 rounds\n";

const PROVED: &[u8] = b"round 1: a!3 b?3 | 0 0 0\nproved\ndone after 1 rounds\n";

/// The exit code of these words over the system's files and output, and a source that is at its
/// end.
fn code(rt: &HostRuntime, all: &[&[u8]]) -> Result<ExitCode, NoMemory> {
    let alloc: Global = rt.alloc();
    let words = words(alloc, all)?;
    let mut source = SureSource::new(alloc, Bytes::new(alloc))?;
    let mut out = StdSink::new(io::writer(rt));
    Ok(ended(
        alloc,
        Ok(words),
        &mut DiskFiles::new(alloc, rt),
        &mut source,
        &mut out,
    ))
}

/// The same, through a buffer before a file that is open for reading.
fn code_unwritten(rt: &HostRuntime, all: &[&[u8]], path: &str) -> Result<ExitCode, Fail> {
    let alloc: Global = rt.alloc();
    let words = words(alloc, all)?;
    let mut source = SureSource::new(alloc, Bytes::new(alloc))?;
    let mut out = StdSink::new(BufWriter::new(alloc, File::open(rt, path)?)?);
    let code = ended(
        alloc,
        Ok(words),
        &mut DiskFiles::new(alloc, rt),
        &mut source,
        &mut out,
    );
    let (_file, _left) = out.into_writer().into_parts();
    Ok(code)
}

/// The exit code where memory for the words ran out.
fn code_without_words(rt: &HostRuntime) -> Result<ExitCode, NoMemory> {
    let alloc: Global = rt.alloc();
    let mut source = SureSource::new(alloc, Bytes::new(alloc))?;
    let mut out = StdSink::new(io::writer(rt));
    Ok(ended(
        alloc,
        Err(NoMemory),
        &mut DiskFiles::new(alloc, rt),
        &mut source,
        &mut out,
    ))
}

#[test]
fn the_process_ends_with_the_status(rt: HostRuntime) -> Result<(), Fail> {
    let alloc = rt.alloc();
    let id = process::id(rt.process());
    let circuit = format!(in alloc; "/tmp/reo_circuit_{id}")?;
    let script = format!(in alloc; "/tmp/reo_script_{id}")?;
    let (c, s) = (circuit.as_bytes(), script.as_bytes());
    fs::write(&rt, circuit.as_str(), TWO)?;
    fs::write(&rt, script.as_str(), LATER)?;
    assert!(rt; code(&rt, &[b"run", c, s])? == ExitCode::from(1));
    fs::write(&rt, script.as_str(), ALL)?;
    assert!(rt; code(&rt, &[b"run", c, s])? == ExitCode::from(0));
    assert!(rt; code_unwritten(&rt, &[b"run", c, s], circuit.as_str())? == ExitCode::from(9));
    assert!(rt; code(&rt, &[b"verify-proof", c, s, s])? == ExitCode::from(13));
    assert!(rt; code(&rt, &[b"run", s, s])? == ExitCode::from(5));
    fs::write(&rt, circuit.as_str(), FILTERED)?;
    assert!(rt; code(&rt, &[b"list", c])? == ExitCode::from(14));
    fs::remove_file(&rt, circuit.as_str())?;
    fs::remove_file(&rt, script.as_str())?;
    assert!(rt; code(&rt, &[b"run", s, s])? == ExitCode::from(3));
    assert!(rt; code(&rt, &[])? == ExitCode::from(2));
    assert!(rt; code_without_words(&rt)? == ExitCode::from(10));
    Ok(())
}

#[test]
fn each_command_ends_well(rt: HostRuntime) -> Result<(), Fail> {
    let alloc = rt.alloc();
    let id = process::id(rt.process());
    let circuit = format!(in alloc; "/tmp/reo_one_{id}")?;
    let script = format!(in alloc; "/tmp/reo_give_{id}")?;
    let trace = format!(in alloc; "/tmp/reo_trace_{id}")?;
    let proof = format!(in alloc; "/tmp/reo_proof_{id}")?;
    fs::write(&rt, circuit.as_str(), ONE)?;
    fs::write(&rt, script.as_str(), GIVE)?;
    fs::write(&rt, trace.as_str(), TRACE)?;
    fs::write(&rt, proof.as_str(), PROVED)?;
    let (c, s) = (circuit.as_bytes(), script.as_bytes());
    let (t, p) = (trace.as_bytes(), proof.as_bytes());
    let run = code(&rt, &[b"run", c, s, b"--budget", b"5", b"--rounds", b"5"])?;
    assert!(rt; run == ExitCode::from(0));
    assert!(rt; code(&rt, &[b"check", c])? == ExitCode::from(0));
    assert!(rt; code(&rt, &[b"print", c])? == ExitCode::from(0));
    assert!(rt; code(&rt, &[b"upgrade", c])? == ExitCode::from(0));
    assert!(rt; code(&rt, &[b"verify", c, s, t])? == ExitCode::from(0));
    assert!(rt; code(&rt, &[b"bench", b"1"])? == ExitCode::from(0));
    assert!(rt; code(&rt, &[b"live", c, b"--budget", b"5"])? == ExitCode::from(0));
    assert!(rt; code(&rt, &[b"list", c])? == ExitCode::from(0));
    assert!(rt; code(&rt, &[b"prove", c, s])? == ExitCode::from(0));
    assert!(rt; code(&rt, &[b"verify-proof", c, s, p])? == ExitCode::from(0));
    fs::remove_file(&rt, circuit.as_str())?;
    fs::remove_file(&rt, script.as_str())?;
    fs::remove_file(&rt, trace.as_str())?;
    fs::remove_file(&rt, proof.as_str())?;
    Ok(())
}
