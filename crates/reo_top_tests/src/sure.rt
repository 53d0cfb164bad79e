//! The command over objects that never fail.
ghost use Rattle.std.specs.Prelude.{◌≢◌};

use crate::checks::is;
use crate::objects::{GIVE, GIVEN, ONE, both_files, words_of};
use reo_io::{SureFiles, SureSink, SureSource};
use reo_top::{Status, reo};
use reo_values::{Bytes, List, NoMemory};
use std::alloc::Global;
use std::test::Fail;

/// It never answers that one did.
fn answer_surely(
    alloc: Global,
    words: &List<Bytes>,
    files: &mut SureFiles,
    source: &mut SureSource,
    out: &mut SureSink,
) -> Status
    ensures fetched { result.code ≢ 3 }
    ensures taken { result.code ≢ 9 }
{
    reo(alloc, words, files, source, out)
}

fn status_of(alloc: Global, files: &mut SureFiles, sink: &mut SureSink) -> Result<u8, NoMemory> {
    let words = words_of(alloc, "run C S")?;
    let mut source = SureSource::new(alloc, Bytes::new(alloc))?;
    Ok(answer_surely(alloc, &words, files, &mut source, sink).code)
}

fn is_written(alloc: Global) -> Result<bool, NoMemory> {
    let mut files = SureFiles::new(alloc, both_files(alloc, ONE, GIVE)?)?;
    let mut sink = SureSink::new(alloc, 99)?;
    let status = status_of(alloc, &mut files, &mut sink)?;
    Ok(status == 0 && sink.bytes() == GIVEN.as_bytes())
}

#[test]
fn a_run_over_objects_that_never_fail_is_written(rt: HostRuntime) -> Result<(), Fail> {
    is(&rt, is_written(rt.alloc())?, GIVEN);
    Ok(())
}
