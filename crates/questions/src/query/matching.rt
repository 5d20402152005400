// What is asked of a pending query: its id, its word, and whether it may still be answered.
ghost use Rattle.std.specs.Prelude.{◌≡◌, ◌==◌};
ghost use Rattle.names.specs.Names.{labels};
ghost use Rattle.machine.specs.Machine.{is_for, is_open};
ghost use Rattle.cache.specs.Entries.{rules};
ghost use Rattle.questions.specs.Queries.{pending_of};

use super::Pending;
use cache::{Key, Moment, QueryId};

// For how many seconds a query is pending.
pub const PATIENCE: u64 = 5;

impl Pending {
    pub fn has_id(&self, id: QueryId) -> bool
        ensures { result ≡ ((pending_of self.now).query.id == id.0) }
    {
        self.query.id == id
    }

    pub fn is_for(&self, key: &Key) -> bool
        ensures { result ≡ is_for (labels key.now.apex) (labels key.now.name) key.now.kind.number (pending_of self.now) }
    {
        self.query.key == *key
    }

    // Up to and including its moment and patience.
    pub fn is_open(&self, moment: Moment) -> bool
        ensures { result ≡ is_open rules moment.0 (pending_of self.now) }
    {
        moment.0.saturating_sub(self.query.asked.0) <= PATIENCE
    }
}
