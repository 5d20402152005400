// The cache: entries, no two of one key.
ghost use Rattle.std.specs.Prelude.{◌≡◌, ◌≤◌, true, map, length};
ghost use Rattle.machine.specs.Store.{one_a_key};
ghost use Rattle.cache.specs.Entries.{entry_of};
ghost use Rattle.cache.specs.Hints.{Covers};
ghost use Rattle.cache.specs.Indexes.{hints_of};

use crate::entry::Entry;
use crate::index::Index;
use bounded::Bounded;

pub mod find;
pub mod put;

pub const MAX_ENTRIES: usize = 1024;

#[derive(Drop)]
pub struct Cache {
    entries: Bounded<Entry, MAX_ENTRIES>,
    // Where each entry stands, by the hash of its key.
    index: Index,
    // The type of the entries holds to it; here a caller's proof can read it of any cache.
    ghost few: { length entries ≤ 1024 },
    ghost apart: { one_a_key (map entry_of entries) ≡ true },
    ghost covered: { Covers (hints_of index) (map entry_of entries) },
    ghost even: { length (hints_of index) ≡ length entries },
}
