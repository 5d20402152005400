// Putting an entry in, and what is forgotten for it.
ghost use Rattle.std.specs.Prelude.{◌≡◌, ◌<◌, [], ◌∷◌, ◌++◌, length, Some, None, slice_set};
ghost use Rattle.protocol.specs.World.{is_key};
ghost use Rattle.machine.specs.Store.{max_entries, place_of};
ghost use Rattle.cache.specs.Entries.{entry_of, rules};
ghost use Rattle.cache.specs.Flags.{soonest_by, put_by, FlagsLaws};
ghost use Rattle.cache.specs.Caches.{entries_of, Puts};

use super::{Cache, MAX_ENTRIES};
use crate::entry::Entry;

// What became of an entry that was put in.
#[derive(Clone, Copy)]
pub enum Stored {
    // It has a place of its own, or that of the entry of the same key.
    Kept,
    // The one that runs out first was forgotten for it.
    Ousted,
    // Every entry is in use.
    NoRoom,
}

impl Cache {
    // Where the entry stands that runs out first, of those not in use; a place without a flag counts as in use.
    fn soonest(&self, used: &[bool]) -> Option<usize>
        ensures { result ≡ soonest_by rules used.now (entries_of self.now) }
    {
        let entries = self.entries.as_slice().iter().zip(used).enumerate();
        let free = entries.filter(|(_, (_, used))| !**used);
        let turns = free.map(|(place, (entry, _))| (entry.turn(), place));
        turns.min().map(|(_, place)| place)
    }

    // In the place of the entry of the same key.
    fn replace(&mut self, place: usize, entry: Entry)
        requires { Some place ≡ place_of (is_key (entry_of entry).apex (entry_of entry).name (entry_of entry).kind) (entries_of self.old) }
        ensures { entries_of self.new ≡ slice_set (entries_of self.old) place (entry_of entry) }
    {
        self.entries.as_mut_slice()[place] = entry;
    }

    // One entry more, of a key that none has.
    fn append(&mut self, entry: Entry)
        requires { (None ≡ place_of (is_key (entry_of entry).apex (entry_of entry).name (entry_of entry).kind) (entries_of self.old)) × (length (entries_of self.old) < max_entries) }
        ensures { entries_of self.new ≡ entries_of self.old ++ entry_of entry ∷ [] }
    {
        let place = self.len();
        self.index.insert(entry.key.hash(), place);
        let _ = self.entries.push(entry);
    }

    // In the place of an entry of another key, where none has this key.
    fn oust(&mut self, place: usize, entry: Entry)
        requires { (None ≡ place_of (is_key (entry_of entry).apex (entry_of entry).name (entry_of entry).kind) (entries_of self.old)) × (place < length (entries_of self.old)) }
        ensures { entries_of self.new ≡ slice_set (entries_of self.old) place (entry_of entry) }
    {
        self.index.remove(place);
        self.index.insert(entry.key.hash(), place);
        self.entries.as_mut_slice()[place] = entry;
    }

    // Puts an entry in: in the place of the one of its key, else at the end, else in the place of the one that runs
    // out first, of those without a flag of use.
    pub fn put(&mut self, entry: Entry, used: &[bool]) -> Stored
        ensures { Puts (put_by rules used.now (entry_of entry) (entries_of self.old)) (entries_of self.old) result (entries_of self.new) }
    {
        if let Some(place) = self.find(&entry.key) {
            self.replace(place, entry);
            return Stored::Kept;
        }
        if self.len() < MAX_ENTRIES {
            self.append(entry);
            return Stored::Kept;
        }
        match self.soonest(used) {
            Some(place) => {
                self.oust(place, entry);
                Stored::Ousted
            }
            None => Stored::NoRoom,
        }
    }
}

pub fn flags_laws()
    ensures { FlagsLaws }
{}
