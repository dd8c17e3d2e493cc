//! Files and a sink of bytes as the program sees them, and their forms in memory and over the real machine. A contract
//! sees what a file holds and what was written, where an implementation tells it, and counts of faults that never
//! fall: a call answers that it failed only where its own count rose. The real forms tell no content.
#![tactic(auto)]

mod files;
mod honest;
mod mem_file;
mod mem_files;
mod mem_sink;
mod moving;
mod real;
mod sink;

pub use files::{Failed, FileFault, Files};
pub use honest::{HonestFiles, HonestSink};
pub use mem_files::MemFiles;
pub use mem_sink::MemSink;
pub use real::{RealFiles, RealSink};
pub use sink::Sink;
