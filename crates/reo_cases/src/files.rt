//! The files of a case in memory.
use reo_io::{DiskFiles, FetchFault, Files, MemoryFiles, Named};
use reo_values::{Bytes, List, NoMemory};
use std::alloc::Global;

/// The most bytes of a file.
const MOST_BYTES: usize = 67_108_864;

/// The bytes of the file of a name, where it can be had.
pub(crate) fn bytes_of(rt: &HostRuntime, name: &[u8]) -> Result<Option<Bytes>, NoMemory> {
    let alloc: Global = rt.alloc();
    let mut room = Bytes::new(alloc);
    match DiskFiles::new(alloc, rt).fetch(alloc, name, MOST_BYTES, &mut room) {
        Ok(()) => Ok(Some(room)),
        Err(FetchFault::NoMemory) => Err(NoMemory),
        Err(_) => Ok(None),
    }
}

/// The files that words name; that of one name has these bytes.
pub(crate) fn files_of(
    rt: &HostRuntime,
    words: &[Bytes],
    given: &[u8],
    bytes: &[u8],
) -> Result<MemoryFiles, NoMemory> {
    let alloc: Global = rt.alloc();
    let mut files = List::new(alloc);
    files.push(Named {
        name: Bytes::from_slice(alloc, given)?,
        bytes: Bytes::from_slice(alloc, bytes)?,
    })?;
    for word in words {
        if let Some(bytes) = bytes_of(rt, word.as_slice())? {
            let name = word.copy(alloc)?;
            files.push(Named { name, bytes })?;
        }
    }
    MemoryFiles::new(alloc, files, List::new(alloc))
}
