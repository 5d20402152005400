// Making a zone, set by set, with every limit.
ghost use Rattle.std.specs.Prelude.{◌≡◌, ◌+◌, ◌≤◌, [], length, is_some, Ok, Err, IfErr, MatchResult, nat_le};
ghost use Rattle.names.specs.declared.fault.Fault.TheVariants.{NoMemory};
ghost use Rattle.names.specs.Fronts.{front_below};
ghost use Rattle.names.specs.Names.{labels};
ghost use Rattle.meaning.specs.Says.{same, is_exactly, find};
ghost use Rattle.records.specs.Sets.{set_of};
ghost use Rattle.zones.specs.Sorted.{place};
ghost use Rattle.zones.specs.Valid.{clashes, added, insert_set};
ghost use Rattle.zones.specs.Zones.{zone_of, zone_from, free, Inserts};

use super::{MAX_SETS, Times, Zone};
use crate::cuts::Cuts;
use crate::sets::SortedSets;
use crate::sets::placing::Place;
use names::{Fault, Name};
use records::{RecordSet, Serial};
use std::alloc::Global;

impl Zone {
    // A zone without sets.
    pub fn new(heap: Global, apex: Name, serial: Serial, times: Times) -> Zone
        ensures { zone_of result ≡ zone_from (labels apex) serial.number times.negative.0 times.refresh.0 times.expire.0 [] }
    {
        Zone {
            serial,
            times,
            sets: SortedSets::new(heap, apex),
            cuts: Cuts::new(heap, apex),
            carried: 0,
        }
    }

    fn has_clash(&self, at: usize, set: &RecordSet) -> bool
        requires { at ≡ place (set_of set.now).name (set_of set.now).kind (zone_of self.now).sets }
        ensures { result ≡ clashes (set_of set.now) (zone_of self.now).sets }
    {
        self.sets.has_clash(at, set)
    }

    fn has_equal(&self, at: usize, set: &RecordSet) -> bool
        requires { at ≡ place (set_of set.now).name (set_of set.now).kind (zone_of self.now).sets }
        ensures { result ≡ is_some (find (is_exactly (set_of set.now).name (set_of set.now).kind) (zone_of self.now).sets) }
    {
        self.sets.find_at(at, set.name(), set.kind()).is_some()
    }

    fn is_at_apex(&self, set: &RecordSet) -> bool
        ensures { result ≡ same (set_of set.now).name (zone_of self.now).apex }
    {
        *set.name() == *self.sets.apex()
    }

    fn is_full(&self) -> bool
        ensures { result ≡ nat_le 4096 (length (zone_of self.now).sets) }
    {
        self.sets.len() >= MAX_SETS
    }

    // The place of a set that may come into the zone, or its lowest fault.
    fn place_of(&self, set: &RecordSet) -> Result<Place, Fault>
        ensures { MatchResult result (λ p. (added (zone_of self.now).apex (zone_of self.now).sets (set_of set.now) ≡ Ok (insert_set (set_of set.now) (zone_of self.now).sets)) × (p.at ≡ place (set_of set.now).name (set_of set.now).kind (zone_of self.now).sets) × (p.front ≡ front_below (length (zone_of self.now).apex) (set_of set.now).name)) (λ f. added (zone_of self.now).apex (zone_of self.now).sets (set_of set.now) ≡ Err f) }
    {
        if !set.name().is_within(self.sets.apex()) {
            return Err(Fault::Misplaced);
        }
        let place = self.sets.place_of(set);
        if self.has_equal(place.at, set) {
            return Err(Fault::Misplaced);
        }
        if set.kind().is_delegation() && self.is_at_apex(set) {
            return Err(Fault::Conflict);
        }
        if self.has_clash(place.at, set) {
            return Err(Fault::Conflict);
        }
        if self.is_full() {
            return Err(Fault::TooMuch);
        }
        Ok(place)
    }

    // Why a set may not come into the zone, by its lowest fault.
    pub fn admits(&self, set: &RecordSet) -> Result<(), Fault>
        ensures { MatchResult result (λ _. added (zone_of self.now).apex (zone_of self.now).sets (set_of set.now) ≡ Ok (insert_set (set_of set.now) (zone_of self.now).sets)) (λ f. added (zone_of self.now).apex (zone_of self.now).sets (set_of set.now) ≡ Err f) }
    {
        self.place_of(set)?;
        Ok(())
    }

    // Room for so many sets more.
    pub fn reserve(&mut self, count: usize) -> Result<(), Fault>
        ensures same { zone_of self.new ≡ zone_of self.old }
        ensures room { MatchResult result (λ _. count ≤ free self.new) (λ f. f ≡ NoMemory) }
    {
        self.sets.reserve(count)?;
        self.cuts.reserve(count)?;
        Ok(())
    }

    // One set more; a refusal leaves the zone as it was. Where there is room for it, memory does not run out.
    pub fn insert(&mut self, set: RecordSet) -> Result<(), Fault>
        ensures inserts { Inserts (added (zone_of self.old).apex (zone_of self.old).sets (set_of set)) (zone_of self.old) result (zone_of self.new) }
        ensures room { free self.old ≤ free self.new + 1 }
        ensures succeeds { 1 ≤ free self.old → IfErr result (λ f. added (zone_of self.old).apex (zone_of self.old).sets (set_of set) ≡ Err f) }
    {
        let place = self.place_of(&set)?;
        // Room first, so that nothing can fail once the set is in.
        self.sets.reserve(1)?;
        self.cuts.reserve(1)?;
        self.cuts.add_set(&set);
        self.carried += set.transfer_len();
        self.sets.insert(place, set);
        Ok(())
    }
}
