//! The command `record`: a journal read from a source, and the record of its game so far written to a sink.
#![tactic(auto)]

mod first;
mod journal;
mod running;
mod status;

pub use journal::{RecordEnd, record_of};
pub use running::{is_for_record, run_record};
pub use status::status_of_record;
