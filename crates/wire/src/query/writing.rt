// Writing a query.
ghost use Rattle.std.specs.Prelude.{◌≡◌, true};
ghost use Rattle.wire.specs.Given.{query_of, written, joined};
ghost use Rattle.wire.specs.Packets.{query_bytes, query_keeps};

use super::{FIRST, QueryPacket};
use crate::buffer::Buffer;

impl QueryPacket {
    #[tactic(auto, using(crate::proofs::Putting::joined_more), unfolding(crate::specs::Packets::query_bytes))]
    pub(crate) fn put(&self, out: &mut Buffer)
        ensures put { written out.new ≡ joined (written out.old) (query_bytes (query_of self.now)) }
        ensures kept { query_keeps (query_of self.now) ≡ true }
    {
        out.byte(FIRST);
        out.number_8(self.id.0);
        out.name(&self.apex);
        out.kind(self.kind);
        out.name(&self.name);
    }
}
