// The ids of queries: one counter for all askers, so that none is drawn twice.
ghost use Rattle.std.specs.Prelude.{◌≡◌, ◌+◌, IfSome};

use cache::QueryId;

#[derive(Drop)]
pub struct Ids {
    // The last one under which a query was sent.
    last: u64,
}

impl Ids {
    pub fn new() -> Ids
        ensures { result.last ≡ 0 }
    {
        Ids { last: 0 }
    }

    pub fn next(&self) -> Option<QueryId>
        ensures { IfSome result (λ i. i.0 ≡ self.now.last + 1) }
    {
        Some(QueryId(self.last.checked_add(1)?))
    }

    // A query was sent under it.
    pub fn use_up(&mut self, id: QueryId)
        ensures { self.new.last ≡ id.0 }
    {
        self.last = id.0;
    }
}
