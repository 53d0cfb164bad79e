//! Files, a source and a sink, each with a count of faults and, where it is told, its content.
#![tactic(auto)]

mod disk_files;
mod failed_names;
mod failing_calls;
mod files;
mod given;
mod holding;
mod kept;
mod lookup;
mod memory_files;
mod memory_sink;
mod memory_source;
mod null_sink;
mod opening;
mod reading;
mod remaining;
mod sink;
mod source;
mod std_sink;
mod std_source;
mod sure_files;
mod sure_sink;
mod sure_source;

pub use disk_files::DiskFiles;
pub use files::{FetchFault, Files, Named};
pub use given::{GivenBytes, GivenFiles, GivenNames};
pub use holding::Holding;
pub use memory_files::MemoryFiles;
pub use memory_sink::MemorySink;
pub use memory_source::MemorySource;
pub use null_sink::NullSink;
pub use sink::{Sink, SinkFault, put_all};
pub use source::{Source, SourceFault};
pub use std_sink::StdSink;
pub use std_source::StdSource;
pub use sure_files::SureFiles;
pub use sure_sink::SureSink;
pub use sure_source::SureSource;
