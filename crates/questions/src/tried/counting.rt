// Whether tries are for a word, and one more of them.
ghost use Rattle.std.specs.Prelude.{◌≡◌};
ghost use Rattle.names.specs.Names.{labels};
ghost use Rattle.machine.specs.Machine.{is_word};
ghost use Rattle.questions.specs.Tries.{tried_for, tried_first, tried_again};

use super::{MOST_COUNTED, Tried};
use crate::query::Pending;
use cache::Key;

impl Tried {
    pub fn first(pending: &Pending) -> Tried
        ensures value { tried_for result ≡ tried_first (labels pending.now.query.key.apex) (labels pending.now.query.key.name) pending.now.place pending.now.query.id.0 }
        ensures key { result.key ≡ pending.now.query.key }
    {
        Tried {
            key: pending.query.key,
            count: 1,
            place: pending.place,
            id: pending.query.id,
        }
    }

    // A query is counted as one more try of the word, unless it was counted last.
    pub fn again(self, pending: &Pending) -> Tried
        ensures value { tried_for result ≡ tried_again pending.now.place pending.now.query.id.0 (tried_for self) }
        ensures key { result.key ≡ self.key }
    {
        if pending.has_id(self.id) {
            return self;
        }
        let mut tried = self;
        if tried.count < MOST_COUNTED {
            tried.count += 1;
        }
        tried.place = pending.place;
        tried.id = pending.query.id;
        tried
    }

    // The kind is not compared: a question has one.
    pub fn is_word(&self, key: &Key) -> bool
        ensures { result ≡ is_word (labels key.now.apex) (labels key.now.name) (tried_for self.now) }
    {
        self.key.has_names_of(key)
    }
}
