// Record sets: kinds, times, serials, addresses and data, each within its limits.
#![tactic(auto)]

mod data;
mod set;
mod types;

pub use data::limits::pieces_fit;
pub use data::{Data, Delegation};
pub use set::RecordSet;
pub use types::{Address, Kind, Serial, Ttl};
