// Reading a query.
ghost use Rattle.std.specs.Prelude.{◌≡◌};
ghost use Rattle.wire.specs.Fields.{unread};
ghost use Rattle.wire.specs.Given.{shaped, query_given};
ghost use Rattle.wire.specs.Packets.{query_in};
ghost use Rattle.wire.specs.Shapes.{query_shape};

use super::QueryPacket;
use crate::fields::{Fields, front_count, name_in};
use cache::QueryId;
use names::Fault;
use records::Kind;

impl QueryPacket {
    // What stands behind the first byte, to its end.
    #[inline(always)]
    pub(crate) fn read(fields: &mut Fields) -> Result<QueryPacket, Fault>
        ensures { query_given result ≡ shaped query_in (query_shape (unread fields.old)) }
    {
        let Some(id) = fields.number_8() else {
            return Err(Fault::Malformed);
        };
        let Some(apex) = fields.list() else {
            return Err(Fault::Malformed);
        };
        let Some(kind) = fields.byte() else {
            return Err(Fault::Malformed);
        };
        let Some(name) = fields.list() else {
            return Err(Fault::Malformed);
        };
        if !fields.is_empty() {
            return Err(Fault::Malformed);
        }
        // The names are made once all lengths are known, and the apex mostly from the name.
        let lower = name_in(name)?;
        let kind = Kind::try_from(kind)?;
        match front_count(apex, name, &lower) {
            Some(depth) => Ok(QueryPacket::under(QueryId(id), kind, lower, depth)),
            None => QueryPacket::new(QueryId(id), name_in(apex)?, kind, lower),
        }
    }
}
