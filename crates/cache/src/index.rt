// Where the entries of the cache stand, in the order of the hashes of their keys.
ghost use Rattle.cache.specs.Hints.{Rising};

use crate::store::MAX_ENTRIES;
use bounded::Bounded;

pub mod search;

// The entry at a place has a key of this hash, if the place is still that entry's.
#[derive(Clone, Copy)]
pub struct Hint {
    pub hash: u64,
    pub place: usize,
}

#[derive(Drop)]
pub struct Index {
    // Sorted, and no map: after entries have come in the place of others a map promises no room for one more, and
    // putting an entry in never fails for memory.
    hints: Bounded<Hint, MAX_ENTRIES>,
    ghost rising: { Rising hints },
}
