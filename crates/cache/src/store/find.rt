// Making a cache, and looking into it.
ghost use Rattle.std.specs.Prelude.{◌≡◌, ◌<◌, ◌≤◌, [], length, IfSome, MatchResult};
ghost use Rattle.std.specs.List.{slice_get};
ghost use Rattle.std.specs.Option.{option_map};
ghost use Rattle.names.specs.declared.fault.Fault.TheVariants.{NoMemory};
ghost use Rattle.names.specs.Names.{labels};
ghost use Rattle.protocol.specs.World.{is_key};
ghost use Rattle.protocol.specs.Walks.{remembered};
ghost use Rattle.machine.specs.Store.{max_entries, place_of};
ghost use Rattle.cache.specs.Entries.{entry_of, rules};
ghost use Rattle.cache.specs.Caches.{entries_of, key_at, onto};

use super::Cache;
use crate::entry::{Entry, Key};
use crate::index::Index;
use crate::word::Moment;
use bounded::Bounded;
use names::Fault;
use std::alloc::Global;

impl Cache {
    pub fn new(heap: Global) -> Result<Cache, Fault>
        ensures { MatchResult result (λ c. entries_of c ≡ []) (λ f. f ≡ NoMemory) }
    {
        let entries = Bounded::new(heap)?;
        let index = Index::new(heap)?;
        Ok(Cache { entries, index })
    }

    pub fn len(&self) -> usize
        ensures value { result ≡ length (entries_of self.now) }
        ensures few { result ≤ max_entries }
    {
        self.entries.len()
    }

    // The entry at a place.
    pub fn get(&self, place: usize) -> Option<&Entry>
        ensures { option_map (λ e. entry_of e.now) result ≡ slice_get (entries_of self.now) place }
    {
        self.entries.as_slice().get(place)
    }

    // Whether the entry at a place has a key.
    fn is_at(&self, place: usize, key: &Key) -> bool
        ensures { result ≡ key_at (labels key.now.apex) (labels key.now.name) key.now.kind.number (slice_get (entries_of self.now) place) }
    {
        self.get(place).is_some_and(|entry| entry.has_key(key))
    }

    // Where the entry of a key stands: a hint of its hash leads to it.
    pub fn find(&self, key: &Key) -> Option<usize>
        ensures { result ≡ place_of (is_key (labels key.now.apex) (labels key.now.name) key.now.kind.number) (entries_of self.now) }
    {
        let hash = key.hash();
        let hints = self.index.from_hash(hash).iter();
        let mut alike = hints.take_while(|hint| hint.hash == hash);
        let found = alike.find(|hint| self.is_at(hint.place, key));
        found.map(|hint| hint.place)
    }

    // The entry of a key with its place, if it still counts.
    pub fn recall_entry(&self, moment: Moment, key: &Key) -> Option<(usize, &Entry)>
        ensures entry { option_map (λ p. entry_of p.1.now) result ≡ remembered rules moment.0 (entries_of self.now) key.now.kind.number (labels key.now.apex) (labels key.now.name) }
        ensures place { IfSome result (λ p. slice_get (entries_of self.now) p.0 ≡ Some (entry_of p.1.now)) }
    {
        let place = self.find(key)?;
        let entry = &self.entries.as_slice()[place];
        entry.counts(moment).then_some((place, entry))
    }

    // Where the entry of a key stands, if it still counts.
    pub fn recall(&self, moment: Moment, key: &Key) -> Option<usize>
        ensures entry { onto (slice_get (entries_of self.now)) result ≡ remembered rules moment.0 (entries_of self.now) key.now.kind.number (labels key.now.apex) (labels key.now.name) }
        ensures place { IfSome result (λ i. i < length (entries_of self.now)) }
    {
        self.recall_entry(moment, key).map(|(place, _)| place)
    }
}
