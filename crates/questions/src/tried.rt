// How often a word was asked for on behalf of a question.
use cache::{Key, QueryId};

pub mod counting;

// Counts go no further: no try can follow where each of at most 16 servers was asked twice.
pub const MOST_COUNTED: u8 = 64;

#[derive(Clone, Copy)]
pub struct Tried {
    // The word: the zone that was asked, and for which name. The kind counts for nothing: a question has one.
    pub key: Key,
    pub count: u8,
    // The place of the last server among those named, and the last query.
    pub place: usize,
    pub id: QueryId,
}
