//! The outside of the compiler and the machine: where bytes come from, where they go, and where files are kept.
#![tactic(auto)]

mod fault_count;
mod file_list;
mod file_store;
mod mem_sink;
mod mem_source;
mod mem_store;
mod schedule;
mod sink;
mod source;
mod std_sink;
mod std_source;
mod store;
mod stored_file;
mod sure;
mod writing;

pub use file_store::FileStore;
pub use mem_sink::MemSink;
pub use mem_source::MemSource;
pub use mem_store::MemStore;
pub use sink::Sink;
pub use source::{Failed, Source};
pub use std_sink::StdSink;
pub use std_source::StdSource;
pub use store::{Store, StoreErr};
pub use stored_file::StoredFile;
pub use sure::{SureSource, SureStore};
pub use writing::write_all;

#[cfg(test)]
mod tests;
