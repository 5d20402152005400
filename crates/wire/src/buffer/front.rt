// What stands in every response before what it tells.
ghost use Rattle.std.specs.Prelude.{◌≡◌, ◌^◌, ◌≤◌, true, ◌&&◌, length, nat_lt};
ghost use Rattle.names.specs.Names.{labels};
ghost use Rattle.wire.specs.Given.{written, joined};
ghost use Rattle.wire.specs.Replies.{front_bytes};
ghost use Rattle.wire.specs.Whats.{number_of};

use super::Buffer;
use crate::response::FIRST;
use crate::what::What;
use cache::QueryId;
use names::Name;
use records::Ttl;

impl Buffer {
    #[tactic(auto, using(crate::proofs::Putting::joined_more))]
    pub fn front(&mut self, id: QueryId, apex: &Name, what: What, ttl: Ttl)
        ensures put { written self.new ≡ joined (written self.old) (front_bytes id.0 (labels apex.now) (number_of what) ttl.0) }
        ensures short { length (front_bytes id.0 (labels apex.now) (number_of what) ttl.0) ≤ 271 }
        ensures kept { (nat_lt id.0 (2 ^ 64) && nat_lt ttl.0 (2 ^ 32)) ≡ true }
    {
        self.byte(FIRST);
        self.number_8(id.0);
        self.name(apex);
        self.byte(what.number());
        self.number_4(ttl.0);
    }
}
