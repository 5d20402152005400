// What a resolver remembers: at most 1,024 words of zones, each found by its key.
#![tactic(auto)]

mod entry;
mod index;
mod store;
mod word;

pub use entry::times::DAY;
pub use entry::{Entry, Key, Numbers};
pub use store::put::{Stored, flags_laws};
pub use store::{Cache, MAX_ENTRIES};
pub use word::{Moment, QueryId, Referral, Said, Word};
