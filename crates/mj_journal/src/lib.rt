//! A journal that outlives a stop: the entries of a game on a disk, each acknowledged once it is there.
#![tactic(auto)]

mod answered;
mod appending;
mod beginning;
mod call;
mod disk;
mod entering;
mod file_disk;
mod founding;
mod game;
mod head;
mod kept;
mod mem_call;
mod mem_calls;
mod mem_disk;
mod mem_write;
mod not_opened;
mod opening;
mod outcome;
mod reading;
mod record;
mod replaying;
mod through;

pub use answered::Answered;
pub use appending::append_record;
pub use call::{GameCall, call_record, is_line};
pub use disk::{Disk, Filled, Size, Synced, Wrote};
pub use file_disk::FileDisk;
pub use game::Entering;
pub use kept::Kept;
pub use mem_call::{CallMade, DiskCall};
pub use mem_disk::MemDisk;
pub use not_opened::NotOpened;
pub use opening::open_entries;
pub use outcome::{Outcome, expiry_outcome, gone_outcome, said_outcome, sit_outcome};
pub use record::Record;
