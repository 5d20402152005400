// Making a query, and its parts.
ghost use Rattle.std.specs.Prelude.{◌≡◌, take};
ghost use Rattle.names.specs.Names.{labels};
ghost use Rattle.wire.specs.Given.{query_of, query_given};
ghost use Rattle.wire.specs.Packets.{query_from};

use super::QueryPacket;
use cache::QueryId;
use names::{Fault, Name};
use records::Kind;

impl QueryPacket {
    #[inline(always)]
    pub fn new(id: QueryId, apex: Name, kind: Kind, name: Name) -> Result<QueryPacket, Fault>
        ensures { query_given result ≡ query_from id.0 (labels apex) kind.number (labels name) }
    {
        if !name.is_within(&apex) {
            return Err(Fault::Misplaced);
        }
        Ok(QueryPacket {
            id,
            apex,
            kind,
            name,
        })
    }

    // Of a zone whose apex is the first labels of the name.
    #[inline(always)]
    pub(crate) fn under(id: QueryId, kind: Kind, name: Name, depth: usize) -> QueryPacket
        ensures { query_of result ≡ record { id = id.0; apex = take depth (labels name); kind = kind.number; name = labels name } }
    {
        QueryPacket {
            id,
            apex: name.ancestor(depth),
            kind,
            name,
        }
    }

    pub fn id(&self) -> QueryId
        ensures { result.0 ≡ (query_of self.now).id }
    {
        self.id
    }

    pub fn apex(&self) -> &Name
        ensures { labels result.now ≡ (query_of self.now).apex }
    {
        &self.apex
    }

    pub fn kind(&self) -> Kind
        ensures { result.number ≡ (query_of self.now).kind }
    {
        self.kind
    }

    pub fn name(&self) -> &Name
        ensures { labels result.now ≡ (query_of self.now).name }
    {
        &self.name
    }
}
