// Any packet, by its first byte.
ghost use Rattle.std.specs.Prelude.{◌≡◌};
ghost use Rattle.wire.specs.Given.{Reads, written, joined, Writes, Fills};
ghost use Rattle.wire.specs.Packets.{packet_in, packet_bytes};
ghost use Rattle.wire.specs.Readings.{packet_of};
ghost use Rattle.wire.specs.Laws.{IsReadAgain, PacketLaws};

use crate::buffer::{Buffer, MAX_PACKET};
use crate::fields::Fields;
use crate::part::{self, PartPacket};
use crate::query::{self, QueryPacket};
use crate::request::{self, RequestPacket};
use crate::response::{self, ResponsePacket};
use names::Fault;
use std::alloc::Global;

#[derive(Drop)]
pub enum Packet {
    Query(QueryPacket),
    Response(ResponsePacket),
    Request(RequestPacket),
    Part(PartPacket),
}

impl Packet {
    // The packet that these bytes are, or their lowest fault.
    #[inline(always)]
    pub fn read(heap: Global, bytes: &[u8]) -> Result<Packet, Fault>
        ensures { Reads packet_of (packet_in bytes.now) result }
    {
        if bytes.len() > MAX_PACKET {
            return Err(Fault::Malformed);
        }
        let mut fields = Fields::new(bytes);
        match fields.byte() {
            Some(query::FIRST) => Ok(Packet::Query(QueryPacket::read(&mut fields)?)),
            Some(response::FIRST) => Ok(Packet::Response(ResponsePacket::read(heap, &mut fields)?)),
            Some(request::FIRST) => Ok(Packet::Request(RequestPacket::read(&mut fields)?)),
            Some(part::FIRST) => Ok(Packet::Part(PartPacket::read(heap, &mut fields)?)),
            _ => Err(Fault::Malformed),
        }
    }

    fn put(&self, out: &mut Buffer)
        ensures put { written out.new ≡ joined (written out.old) (packet_bytes (packet_of self.now)) }
        ensures read { IsReadAgain (packet_of self.now) }
    {
        match self {
            Packet::Query(query) => query.put(out),
            Packet::Response(response) => response.put(out),
            Packet::Request(request) => request.put(out),
            Packet::Part(part) => part.put(out),
        }
    }

    // Writes it behind what is there, all of it or nothing.
    pub fn write(&self, out: &mut Vec<u8>) -> Result<(), Fault>
        ensures written { Writes out.old.items (packet_bytes (packet_of self.now)) result out.new.items }
        ensures read { IsReadAgain (packet_of self.now) }
    {
        let mut buffer = Buffer::new();
        self.put(&mut buffer);
        buffer.append_to(out)
    }

    // Writes it to the front of the free bytes, and gives how many it takes; without room they stay as they are.
    pub fn write_into(&self, free: &mut [u8]) -> Option<usize>
        ensures { Fills free.old (packet_bytes (packet_of self.now)) result free.new }
    {
        let mut buffer = Buffer::new();
        self.put(&mut buffer);
        buffer.copy_to(free)
    }
}

pub fn packet_laws()
    ensures { PacketLaws }
{}
