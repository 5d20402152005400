// Making sorted sets, and reading them as they stand.
ghost use Rattle.std.specs.Prelude.{◌≡◌, ◌+◌, ◌<◌, ◌≤◌, true, false, [], map, length, is_some, MatchResult};
ghost use Rattle.names.specs.declared.fault.Fault.TheVariants.{NoMemory};
ghost use Rattle.names.specs.Fronts.{front_below};
ghost use Rattle.names.specs.Names.{labels};
ghost use Rattle.names.specs.Order.{within};
ghost use Rattle.meaning.specs.Says.{is_exactly, find};
ghost use Rattle.records.specs.Sets.{set_of};
ghost use Rattle.zones.specs.Sorted.{place};
ghost use Rattle.zones.specs.Valid.{insert_set};
ghost use Rattle.zones.specs.Zones.{sets_of, free_sets};

use super::SortedSets;
use super::placing::Place;
use names::{Fault, Name};
use records::RecordSet;
use std::alloc::Global;

impl SortedSets {
    pub fn new(heap: Global, apex: Name) -> SortedSets
        ensures apex { labels result.apex ≡ labels apex }
        ensures sets { sets_of result ≡ [] }
    {
        SortedSets {
            apex,
            sets: Vec::new(heap),
            fronts: Vec::new(heap),
        }
    }

    pub fn apex(&self) -> &Name
        ensures { labels result.now ≡ labels self.now.apex }
    {
        &self.apex
    }

    pub fn len(&self) -> usize
        ensures { result ≡ length (sets_of self.now) }
    {
        self.sets.len()
    }

    pub fn as_slice(&self) -> &[RecordSet]
        ensures { map set_of result.now ≡ sets_of self.now }
    {
        self.sets.as_slice()
    }

    // Room for so many more.
    pub fn reserve(&mut self, count: usize) -> Result<(), Fault>
        ensures apex { labels self.new.apex ≡ labels self.old.apex }
        ensures sets { sets_of self.new ≡ sets_of self.old }
        ensures kept { free_sets self.old ≤ free_sets self.new }
        ensures room { MatchResult result (λ _. count ≤ free_sets self.new) (λ f. (f ≡ NoMemory) × (free_sets self.old < count)) }
    {
        self.fronts.reserve(count)?;
        self.sets.reserve(count)?;
        Ok(())
    }

    // One set more, at its place.
    pub fn insert(&mut self, to: Place, set: RecordSet)
        requires inside { within (labels self.old.apex) (set_of set).name ≡ true }
        requires fresh { is_some (find (is_exactly (set_of set).name (set_of set).kind) (sets_of self.old)) ≡ false }
        requires at { to.at ≡ place (set_of set).name (set_of set).kind (sets_of self.old) }
        requires front { to.front ≡ front_below (length (labels self.old.apex)) (set_of set).name }
        requires room { 1 ≤ free_sets self.old }
        ensures apex { labels self.new.apex ≡ labels self.old.apex }
        ensures sets { sets_of self.new ≡ insert_set (set_of set) (sets_of self.old) }
        ensures room { free_sets self.old ≤ free_sets self.new + 1 }
    {
        // Behind all, none has to move.
        if to.at == self.sets.len() {
            self.sets.push_reserved(set);
            self.fronts.push_reserved(to.front);
            return;
        }
        let _ = self.sets.insert(to.at, set);
        let _ = self.fronts.insert(to.at, to.front);
    }
}
