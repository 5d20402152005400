// Reading a response.
ghost use Rattle.wire.specs.Fields.{unread};
ghost use Rattle.wire.specs.Given.{Reads, shaped};
ghost use Rattle.wire.specs.Packets.{response_in};
ghost use Rattle.wire.specs.Responses.{response_of};
ghost use Rattle.wire.specs.Shapes.{response_shape};

use super::ResponsePacket;
use crate::fields::Fields;
use crate::told::Told;
use crate::what::What;
use cache::QueryId;
use names::Fault;
use records::Ttl;
use std::alloc::Global;

impl ResponsePacket {
    // What stands behind the first byte, to its end.
    pub(crate) fn read(heap: Global, fields: &mut Fields) -> Result<ResponsePacket, Fault>
        ensures { Reads response_of (shaped response_in (response_shape (unread fields.old))) result }
    {
        let Some(id) = fields.number_8() else {
            return Err(Fault::Malformed);
        };
        let Some(apex) = fields.name() else {
            return Err(Fault::Malformed);
        };
        let Some(what) = fields.what() else {
            return Err(Fault::Malformed);
        };
        let Some(ttl) = fields.number_4() else {
            return Err(Fault::Malformed);
        };
        let Some(name) = fields.name_if(what.names_one()) else {
            return Err(Fault::Malformed);
        };
        let Some(pieces) = fields.list() else {
            return Err(Fault::Malformed);
        };
        if !fields.is_empty() {
            return Err(Fault::Malformed);
        }
        let apex = apex?;
        let told = Told::read(heap, what, name?, pieces)?;
        ResponsePacket::new(QueryId(id), apex, Ttl(ttl), told)
    }
}
