// Making a response, and its parts.
ghost use Rattle.std.specs.Prelude.{◌≡◌};
ghost use Rattle.names.specs.Names.{labels};
ghost use Rattle.wire.specs.Packets.{response_from};
ghost use Rattle.wire.specs.Responses.{response_of, response_given};
ghost use Rattle.wire.specs.Tellings.{told_of};

use super::ResponsePacket;
use crate::told::Told;
use cache::QueryId;
use names::{Fault, Name};
use records::Ttl;

impl ResponsePacket {
    #[tactic(auto, unfolding(crate::specs::Cuts::next))]
    pub fn new(id: QueryId, apex: Name, ttl: Ttl, told: Told) -> Result<ResponsePacket, Fault>
        ensures { response_given result ≡ response_from id.0 (labels apex) ttl.0 (told_of told) }
    {
        told.check(&apex)?;
        Ok(ResponsePacket {
            id,
            apex,
            ttl,
            told,
        })
    }

    pub fn id(&self) -> QueryId
        ensures { result.0 ≡ (response_of self.now).id }
    {
        self.id
    }

    pub fn apex(&self) -> &Name
        ensures { labels result.now ≡ (response_of self.now).apex }
    {
        &self.apex
    }

    pub fn ttl(&self) -> Ttl
        ensures { result.0 ≡ (response_of self.now).ttl }
    {
        self.ttl
    }

    pub fn told(&self) -> &Told
        ensures { told_of result.now ≡ (response_of self.now).told }
    {
        &self.told
    }
}
