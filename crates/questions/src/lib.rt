// What a resolver keeps of the questions under way: how often each word was asked for, and the queries that are pending.
#![tactic(auto)]

mod query;
mod question;
mod table;
mod tried;

pub use query::matching::PATIENCE;
pub use query::{Pending, Query};
pub use question::{MAX_WORDS, Question, Request};
pub use table::{MAX_PENDING, PendingTable};
pub use tried::{MOST_COUNTED, Tried};
