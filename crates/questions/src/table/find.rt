// Making a table, and looking into it.
ghost use Rattle.std.specs.Prelude.{◌≡◌, ◌≤◌, [], length, map, MatchResult, ◌==◌, nat_le};
ghost use Rattle.std.specs.List.{slice_get};
ghost use Rattle.std.specs.Option.{option_map};
ghost use Rattle.names.specs.declared.fault.Fault.TheVariants.{NoMemory};
ghost use Rattle.names.specs.Names.{labels};
ghost use Rattle.protocol.specs.Lists.{first};
ghost use Rattle.machine.specs.Machine as machine;
ghost use Rattle.machine.specs.Machine.{max_pending, pending_for};
ghost use Rattle.questions.specs.Queries.{pending_of};
ghost use Rattle.questions.specs.Tables.{table_of};

use super::PendingTable;
use crate::query::Pending;
use bounded::Bounded;
use cache::{Key, QueryId};
use names::Fault;
use std::alloc::Global;

impl PendingTable {
    pub fn new(heap: Global) -> Result<PendingTable, Fault>
        ensures { MatchResult result (λ t. table_of t ≡ []) (λ f. f ≡ NoMemory) }
    {
        let queries = Bounded::new(heap)?;
        Ok(PendingTable { queries })
    }

    // Oldest first.
    pub fn as_slice(&self) -> &[Pending]
        ensures { map pending_of result.now ≡ table_of self.now }
    {
        self.queries.as_slice()
    }

    pub fn len(&self) -> usize
        ensures value { result ≡ length (table_of self.now) }
        ensures few { result ≤ max_pending }
    {
        self.queries.len()
    }

    pub fn is_full(&self) -> bool
        ensures { result ≡ nat_le max_pending (length (table_of self.now)) }
    {
        self.queries.is_full()
    }

    // The query at a place.
    pub fn at(&self, i: usize) -> Option<Pending>
        ensures { option_map pending_of result ≡ slice_get (table_of self.now) i }
    {
        self.as_slice().get(i).copied()
    }

    pub fn by_id(&self, id: QueryId) -> Option<Pending>
        ensures { option_map pending_of result ≡ first (λ (x : machine.Pending). (x.query.id == id.0)) (table_of self.now) }
    {
        self.queries
            .as_slice()
            .iter()
            .find(|p| p.has_id(id))
            .copied()
    }

    pub fn for_word(&self, key: &Key) -> Option<Pending>
        ensures { option_map pending_of result ≡ pending_for (labels key.now.apex) (labels key.now.name) key.now.kind.number (table_of self.now) }
    {
        self.queries
            .as_slice()
            .iter()
            .find(|p| p.is_for(key))
            .copied()
    }
}
