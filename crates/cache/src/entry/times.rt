// How long an entry counts, which of two runs out first, and whether it has a key.
ghost use Rattle.std.specs.Prelude.{◌≡◌, ◌&&◌};
ghost use Rattle.names.specs.Names.{labels};
ghost use Rattle.meaning.specs.Says.{same};
ghost use Rattle.protocol.specs.World.{until, counts, is_key};
ghost use Rattle.protocol.specs.Walks.{left};
ghost use Rattle.machine.specs.Store.{sooner};
ghost use Rattle.cache.specs.Entries.{entry_of, rules, turn_of};

use super::{Entry, Key};
use crate::word::Moment;

// In seconds: no word counts for longer.
pub const DAY: u32 = 86_400;

impl Key {
    // Whether another key has the same apex and name, of whatever kind.
    pub fn has_names_of(&self, other: &Key) -> bool
        ensures { result ≡ (same (labels self.now.apex) (labels other.now.apex) && same (labels self.now.name) (labels other.now.name)) }
    {
        self.apex == other.apex && self.name == other.name
    }
}

impl Entry {
    // The last moment at which the word counts; past 64 bits where it was heard that late.
    pub fn until(&self) -> u128
        ensures { result ≡ until rules (entry_of self.now) }
    {
        let kept = self.numbers.ttl.0.min(DAY);
        u128::from(self.numbers.heard.0) + u128::from(kept)
    }

    pub fn counts(&self, moment: Moment) -> bool
        ensures { result ≡ counts rules moment.0 (entry_of self.now) }
    {
        u128::from(moment.0) <= self.until()
    }

    // For how many more seconds the word counts.
    pub fn left(&self, moment: Moment) -> u128
        ensures { result ≡ left rules moment.0 (entry_of self.now) }
    {
        self.until().saturating_sub(u128::from(moment.0))
    }

    // Of two entries, the one of the lower turn is forgotten first.
    pub(crate) fn turn(&self) -> (u128, Moment)
        ensures { result ≡ turn_of (entry_of self.now) }
    {
        (self.until(), self.numbers.heard)
    }

    // Whether it runs out before another; of two that run out together, whether it was heard first.
    pub fn is_sooner(&self, other: &Entry) -> bool
        ensures { result ≡ sooner rules (entry_of self.now) (entry_of other.now) }
    {
        self.turn() < other.turn()
    }

    pub fn has_key(&self, key: &Key) -> bool
        ensures { result ≡ is_key (labels key.now.apex) (labels key.now.name) key.now.kind.number (entry_of self.now) }
    {
        self.key == *key
    }
}
