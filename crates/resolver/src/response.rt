// A response as it comes: to which query, from which zone, and what it says.
use cache::{QueryId, Word};
use names::Name;

pub mod fitting;

#[derive(Drop)]
pub struct Response {
    pub id: QueryId,
    pub apex: Name,
    pub word: Word,
}
