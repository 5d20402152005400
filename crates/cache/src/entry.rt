// An entry of the cache: a word under its key, and the query that brought it.
use crate::word::{Moment, QueryId, Said};
use names::Name;
use records::{Address, Kind, Ttl};

pub mod hash;
pub mod times;

// The zone that was asked, and for what.
#[derive(Clone, Copy, PartialEq, Eq)]
pub struct Key {
    pub apex: Name,
    pub name: Name,
    pub kind: Kind,
}

// For how long and since when the word counts, and in response to which query to which server it came.
#[derive(Clone, Copy)]
pub struct Numbers {
    pub ttl: Ttl,
    pub heard: Moment,
    pub id: QueryId,
    pub server: Address,
}

#[derive(Drop)]
pub struct Entry {
    pub key: Key,
    pub said: Said,
    pub numbers: Numbers,
}
