// A query that was sent, and what is kept of it while it is pending.
use cache::{Key, Moment, QueryId};
use records::Address;

pub mod matching;

#[derive(Clone, Copy)]
pub struct Query {
    pub id: QueryId,
    pub server: Address,
    // The zone that is asked, and for what.
    pub key: Key,
    pub asked: Moment,
}

// The query, and the place of its server among those named.
#[derive(Clone, Copy)]
pub struct Pending {
    pub query: Query,
    pub place: usize,
}
