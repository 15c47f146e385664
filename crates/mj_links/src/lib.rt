//! The outside of the table: what is read from and what is written to, in memory or over the system's
//! streams.
#![tactic(auto)]

mod clock;
mod faults;
mod host;
mod line_buffer;
mod link;
mod machine_clock;
mod mem_fault;
mod mem_host;
mod mem_link;
mod mem_sink;
mod mem_source;
mod pause;
mod plan;
mod sink;
mod source;
mod streams;
mod tcp_host;
mod tcp_link;
mod waiting;
mod whole;
mod wire;

pub use clock::{Clock, MemClock};
pub use faults::FaultCount;
pub use host::{Came, Given, Host, Numbered, Opened};
pub use link::Link;
pub use machine_clock::MachineClock;
pub use mem_fault::MemFault;
pub use mem_host::MemHost;
pub use mem_link::MemLink;
pub use mem_sink::MemSink;
pub use mem_source::MemSource;
pub use sink::{Put, Sink};
pub use source::{Got, Source};
pub use streams::{ReaderSource, WriterSink};
pub use tcp_host::{TcpFault, TcpHost};
pub use tcp_link::TcpLink;
pub use whole::{ReadAll, WriteAll, read_all, write_all};
pub use wire::{LineRead, Sent, Wire};
