use mj_deeds::Rule;
pub use mj_ports::{Expiry, Left, SitAnswer};

/// What a line of a present seat is answered.
pub type Heard = mj_ports::Heard<Rule>;
