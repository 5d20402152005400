// A drawn id lets one question send the query that it wants.
ghost use Rattle.std.specs.Prelude.{◌≡◌, ◌<◌, [], length, slice_index_or};
ghost use Rattle.names.specs.Names.{labels};
ghost use Rattle.protocol.specs.World.{query_for};
ghost use Rattle.cache.specs.Caches.{entries_of};
ghost use Rattle.walks.specs.Ways.{servers_at};
ghost use Rattle.machine.specs.Machine.{place_for, draw};
ghost use Rattle.questions.specs.Queries.{pending_of};
ghost use Rattle.resolver.specs.Resolvers.{roots_of, rules_for, state_of, one_tried};
ghost use Rattle.resolver.specs.Draws.{wanting, wanting_for, Draws};
ghost use Rattle.resolver.specs.Runs.{GoesOnAsking};

use super::Resolver;
use crate::answer::{Standing, Wanted};
use cache::QueryId;
use names::Fault;
use questions::{Pending, Query, Tried};

// The first server is at the place id modulo how many, the next ones follow.
fn place_for(id: QueryId, many: usize, tried: Option<Tried>) -> usize
    requires { 0 < many }
    ensures below { result < many }
    ensures place { result ≡ place_for id.0 many (one_tried tried) }
{
    match tried {
        None => (id.0 % many as u64) as usize,
        Some(tried) => (tried.place % many + 1) % many,
    }
}

impl Resolver {
    // What the youngest question that wants a query wants.
    fn wanting(&self) -> Option<Wanted>
        ensures { wanting_for (roots_of self.now) (entries_of self.now.cache) result ≡ wanting (rules_for self.now) (state_of self.now) }
    {
        for question in self.walks.as_slice().iter().rev() {
            if let Standing::Wants(wanted) = self.standing(question) {
                return Some(wanted);
            }
        }
        None
    }

    // The id goes to the youngest question that wants a query, which is sent; one that is pending still is refused.
    pub fn draw(&mut self, id: QueryId) -> Result<Option<Query>, Fault>
        ensures done { Draws (draw (rules_for self.old) id.0 (state_of self.old)) (state_of self.old) result (state_of self.new) }
        ensures roots { roots_of self.new ≡ roots_of self.old }
        ensures runs { GoesOnAsking self.old id.0 result self.new }
    {
        if self.pending.by_id(id).is_some() {
            return Err(Fault::Malformed);
        }
        if self.pending.is_full() {
            return Ok(None);
        }
        let Some(wanted) = self.wanting() else {
            return Ok(None);
        };
        let pending = self.query_for(id, &wanted);
        self.count_tries(&pending);
        let _ = self.pending.add(pending);
        Ok(Some(pending.query))
    }

    // The query that is wanted, to the server whose turn it is.
    fn query_for(&self, id: QueryId, wanted: &Wanted) -> Pending
        requires { 0 < length (servers_at (roots_of self.now) (entries_of self.now.cache) wanted.now.referral) }
        ensures { pending_of result ≡ record { query = query_for id.0 (slice_index_or (servers_at (roots_of self.now) (entries_of self.now.cache) wanted.now.referral) (place_for id.0 (length (servers_at (roots_of self.now) (entries_of self.now.cache) wanted.now.referral)) (one_tried wanted.now.tried)) []) (labels wanted.now.key.apex) (labels wanted.now.key.name) wanted.now.key.kind.number self.now.moment.0; place = place_for id.0 (length (servers_at (roots_of self.now) (entries_of self.now.cache) wanted.now.referral)) (one_tried wanted.now.tried) } }
    {
        let servers = self.servers_at(wanted.referral);
        let place = place_for(id, servers.len(), wanted.tried);
        Pending {
            query: Query {
                id,
                server: servers[place],
                key: wanted.key,
                asked: self.moment,
            },
            place,
        }
    }
}
