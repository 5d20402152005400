// A query more, or fewer.
ghost use Rattle.std.specs.Prelude.{◌≡◌, not, [], ◌∷◌, ◌++◌, length, if◌then◌else◌, nat_le, is_ok, IfErr};
ghost use Rattle.protocol.specs.Lists.{kept};
ghost use Rattle.machine.specs.Machine.{max_pending, close_in, is_open};
ghost use Rattle.cache.specs.Entries.{rules};
ghost use Rattle.questions.specs.Queries.{pending_of};
ghost use Rattle.questions.specs.Tables.{table_of};

use super::PendingTable;
use crate::query::Pending;
use cache::{Moment, QueryId};

impl PendingTable {
    // At the end; a full table hands it back.
    pub fn add(&mut self, pending: Pending) -> Result<(), Pending>
        ensures told { is_ok result ≡ not (nat_le max_pending (length (table_of self.old))) }
        ensures table { table_of self.new ≡ (if is_ok result then table_of self.old ++ pending_of pending ∷ [] else table_of self.old) }
        ensures back { IfErr result (λ x. x ≡ pending) }
    {
        self.queries.push(pending)
    }

    // The query of an id is pending no more.
    pub fn close(&mut self, id: QueryId)
        ensures { table_of self.new ≡ close_in id.0 (table_of self.old) }
    {
        self.queries.retain(|pending| !pending.has_id(id));
    }

    // Those that may be answered no more are forgotten.
    pub fn expire(&mut self, moment: Moment)
        ensures { table_of self.new ≡ kept (is_open rules moment.0) (table_of self.old) }
    {
        self.queries.retain(|pending| pending.is_open(moment));
    }
}
