// Packets, numbered from 1 in the order in which they were sent. A packet stays, and may be brought again.
ghost use Rattle.std.specs.Prelude.{◌≡◌, ℕ, ◌+◌, [], ◌∷◌, ◌++◌, length, IfOk, MatchResult};
ghost use Rattle.std.specs.List.{slice_get};
ghost use Rattle.std.specs.Option.{option_map};
ghost use Rattle.std.specs.Int.{from_be_bytes, w64};
ghost use Rattle.names.specs.declared.fault.Fault.TheVariants.{NoMemory};
ghost use Rattle.resolver.specs.Hears.{response_of};
ghost use Rattle.valley.specs.Packets.{telling_of, packet_of};

use cache::{Moment, QueryId, Word};
use names::{Fault, Name};
use questions::Query;
use records::Kind;
use resolver::Response;
use std::alloc::Global;

// A query, and who asks.
#[derive(Clone, Copy)]
pub struct Asked {
    pub asker: u64,
    pub query: Query,
}

// A response, and to whom. It carries neither the kind that was asked for nor the moment as of which the server had the zone.
#[derive(Drop)]
pub struct Told {
    pub asker: u64,
    pub server: u64,
    pub id: QueryId,
    pub apex: Name,
    pub kind: Kind,
    pub word: Word,
    pub moment: Moment,
}

#[derive(Drop)]
pub enum Packet {
    Query(Asked),
    Response(Told),
}

#[derive(Drop)]
pub struct Net {
    packets: Vec<Packet>,
}

impl Asked {
    // The number of the server that is asked.
    pub fn server(&self) -> u64
        ensures { result ≡ from_be_bytes w64 self.now.query.server.0 }
    {
        u64::from_be_bytes(self.query.server.0)
    }
}

impl Told {
    fn copied(&self, heap: Global) -> Result<Told, Fault>
        ensures { MatchResult result (λ t. telling_of t ≡ telling_of self.now) (λ f. f ≡ NoMemory) }
    {
        let word = self.word.copied(heap)?;
        Ok(Told {
            asker: self.asker,
            server: self.server,
            id: self.id,
            apex: self.apex,
            kind: self.kind,
            word,
            moment: self.moment,
        })
    }

    // As the asker hears it.
    pub fn response(self) -> Response
        ensures { response_of result ≡ (telling_of self).response }
    {
        Response {
            id: self.id,
            apex: self.apex,
            word: self.word,
        }
    }
}

impl Packet {
    pub fn copied(&self, heap: Global) -> Result<Packet, Fault>
        ensures { MatchResult result (λ p. packet_of p ≡ packet_of self.now) (λ f. f ≡ NoMemory) }
    {
        Ok(match self {
            Packet::Query(asked) => Packet::Query(*asked),
            Packet::Response(told) => Packet::Response(told.copied(heap)?),
        })
    }
}

impl Net {
    pub fn new(heap: Global) -> Net
        ensures { result.packets.items ≡ [] }
    {
        Net {
            packets: Vec::new(heap),
        }
    }

    // The packet's number.
    pub fn send(&mut self, packet: Packet) -> Result<u64, Fault>
        ensures { IfOk result (λ n. (self.new.packets.items ≡ self.old.packets.items ++ packet ∷ []) × (n ≡ length self.new.packets.items)) }
    {
        self.packets.push(packet)?;
        Ok(self.packets.len() as u64)
    }

    pub fn get(&self, number: u64) -> Option<&Packet>
        ensures { (i : ℕ) → number ≡ i + 1 → option_map (λ p. p.now) result ≡ slice_get self.now.packets.items i }
    {
        let place = usize::try_from(number.checked_sub(1)?).ok()?;
        self.packets.get(place)
    }
}
