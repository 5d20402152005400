// A request for a zone's transfer.
ghost use Rattle.std.specs.Prelude.{◌≡◌, true};
ghost use Rattle.wire.specs.Fields.{unread};
ghost use Rattle.wire.specs.Given.{shaped, written, joined};
ghost use Rattle.wire.specs.Packets.{request_in, request_bytes, request_keeps};
ghost use Rattle.wire.specs.Requests.{request_of, request_given};
ghost use Rattle.wire.specs.Shapes.{request_shape};

use crate::buffer::Buffer;
use crate::fields::Fields;
use cache::QueryId;
use names::{Fault, Name};

pub const FIRST: u8 = 3;

#[derive(Clone, Copy)]
pub struct RequestPacket {
    pub id: QueryId,
    pub apex: Name,
    // The serial of the zone that is there already.
    pub known: u64,
}

impl RequestPacket {
    // What stands behind the first byte, to its end.
    pub(crate) fn read(fields: &mut Fields) -> Result<RequestPacket, Fault>
        ensures { request_given result ≡ shaped request_in (request_shape (unread fields.old)) }
    {
        let Some(id) = fields.number_8() else {
            return Err(Fault::Malformed);
        };
        let Some(apex) = fields.name() else {
            return Err(Fault::Malformed);
        };
        let Some(known) = fields.number_8() else {
            return Err(Fault::Malformed);
        };
        if !fields.is_empty() {
            return Err(Fault::Malformed);
        }
        Ok(RequestPacket {
            id: QueryId(id),
            apex: apex?,
            known,
        })
    }

    #[tactic(auto, using(crate::proofs::Putting::joined_more), unfolding(crate::specs::Packets::request_bytes))]
    pub(crate) fn put(&self, out: &mut Buffer)
        ensures put { written out.new ≡ joined (written out.old) (request_bytes (request_of self.now)) }
        ensures kept { request_keeps (request_of self.now) ≡ true }
    {
        out.byte(FIRST);
        out.number_8(self.id.0);
        out.name(&self.apex);
        out.number_8(self.known);
    }
}
