//! The files, sources and sinks of the system.
use crate::checks::is;
use crate::files::fetched;
use crate::puts::mark_of_put;
use crate::takes::five_takes;
use reo_io::{DiskFiles, StdSink, StdSource};
use reo_values::{Bytes, NoMemory};
use std::fs::{self, File};
use std::io::BufWriter;
use std::process;
use std::test::Fail;

fn mark_of_written(rt: &HostRuntime, path: &str) -> Result<u8, Fail> {
    Ok(mark_of_put(b"abc", &mut StdSink::new(File::create(rt, path)?)))
}

fn read_in_pieces(rt: &HostRuntime, path: &str) -> Result<Bytes, Fail> {
    Ok(five_takes(rt.alloc(), &mut StdSource::new(File::open(rt, path)?))?)
}

/// The mark of a put into a file that is open for reading.
fn mark_of_unwritten(rt: &HostRuntime, path: &str) -> Result<u8, Fail> {
    Ok(mark_of_put(b"abc", &mut StdSink::new(File::open(rt, path)?)))
}

/// The takes from a file that is open for writing.
fn read_from_written(rt: &HostRuntime, path: &str) -> Result<Bytes, Fail> {
    Ok(five_takes(rt.alloc(), &mut StdSource::new(File::create(rt, path)?))?)
}

/// Limits, and what `fetched` says of a file that holds `abc`.
const LIMITS: &[(u32, &str)] = &[(3, ".abc"), (2, ">abc"), (1, ">ab"), (0, ">a")];

/// Whether this is fetched of a file.
fn disk_says(rt: &HostRuntime, path: &[u8], limit: u32, said: &str) -> Result<bool, NoMemory> {
    let said_of_it = fetched(rt.alloc(), &mut DiskFiles::new(rt.alloc(), rt), path, limit)?;
    Ok(said_of_it.as_slice() == said.as_bytes())
}

/// The path of a file of this process.
fn path_of(rt: &HostRuntime) -> Result<String, Fail> {
    Ok(format!(in rt.alloc(); "/tmp/reo_outside_{}", process::id(rt.process()))?)
}

fn written_and_read(rt: &HostRuntime, path: &str) -> Result<bool, Fail> {
    Ok(
        mark_of_written(rt, path)? == b'.'
            && read_in_pieces(rt, path)?.as_slice() == b"ab|c||||".as_slice(),
    )
}

fn the_wrong_way_round(rt: &HostRuntime, path: &str) -> Result<bool, Fail> {
    Ok(
        mark_of_unwritten(rt, path)? == b'!'
            && read_from_written(rt, path)?.as_slice() == b"!!!!!".as_slice(),
    )
}

/// The marks of a put and of a flush through a buffer before a file.
fn marks_of_buffered(rt: &HostRuntime, file: File) -> Result<[u8; 2], Fail> {
    let mut sink = StdSink::new(BufWriter::new(rt.alloc(), file)?);
    let put = mark_of_put(b"abc", &mut sink);
    let flush = if sink.flush().is_ok() { b'.' } else { b'!' };
    let (_file, _left) = sink.into_writer().into_parts();
    Ok([put, flush])
}

/// What is put through a buffer is taken, and comes to the file by the flush, which fails where
/// the file is open for reading.
fn buffered(rt: &HostRuntime, path: &str) -> Result<bool, Fail> {
    let written = marks_of_buffered(rt, File::create(rt, path)?)? == [b'.', b'.'];
    let all = disk_says(rt, path.as_bytes(), 9, ".abc")?;
    let unwritten = marks_of_buffered(rt, File::open(rt, path)?)? == [b'.', b'!'];
    Ok(written && all && unwritten)
}

/// Whether a file is fetched within limits as they say.
fn are_fetched(rt: &HostRuntime, path: &str) -> Result<bool, NoMemory> {
    for (limit, said) in LIMITS {
        if !disk_says(rt, path.as_bytes(), *limit, said)? {
            return Ok(false);
        }
    }
    Ok(true)
}

/// Whether nothing is fetched where there is no file, or where its path is no text.
fn is_none(rt: &HostRuntime, path: &str) -> Result<bool, NoMemory> {
    Ok(disk_says(rt, path.as_bytes(), 9, "!")? && disk_says(rt, b"\xff", 9, "!")?)
}

/// Whether all is as told of a file of this path, which is made, written and read, and taken away.
fn are_right(rt: &HostRuntime, path: &str) -> Result<bool, Fail> {
    let read = written_and_read(rt, path)? && are_fetched(rt, path)?;
    let turned = the_wrong_way_round(rt, path)? && buffered(rt, path)?;
    fs::remove_file(rt, path)?;
    Ok(read && turned && is_none(rt, path)?)
}

#[test]
fn the_real_ones_write_and_read_a_file(rt: HostRuntime) -> Result<(), Fail> {
    let path = path_of(&rt)?;
    is(&rt, are_right(&rt, path.as_str())?, path.as_str());
    Ok(())
}
