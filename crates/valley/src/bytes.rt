// The bytes of packets, as they go over the net.
ghost use Rattle.std.specs.Prelude.{◌≡◌, ◌++◌, IfOk};
ghost use Rattle.questions.specs.Queries.{query_of};
ghost use Rattle.wire.specs.Packets.{query_bytes};
ghost use Rattle.valley.specs.Packets.{Responding, telling_of, packet_of, asked_in, bytes_for};

use crate::net::{Asked, Packet, Told};
use names::Fault;
use std::alloc::Global;
use wire::{QueryPacket, write_word};

fn write_query(asked: &Asked, out: &mut Vec<u8>) -> Result<(), Fault>
    ensures { IfOk result (λ _. out.new.items ≡ out.old.items ++ query_bytes (asked_in (query_of asked.now.query))) }
{
    let query = &asked.query;
    let key = &query.key;
    let packet = QueryPacket::new(query.id, key.apex, key.kind, key.name)?;
    wire::Packet::Query(packet).write(out)
}

fn write_response(told: &Told, out: &mut Vec<u8>) -> Result<(), Fault>
    ensures { IfOk result (λ _. out.new.items ≡ out.old.items ++ bytes_for (Responding (telling_of told.now))) }
{
    write_word(told.id, &told.apex, told.kind, &told.word, out)
}

pub fn bytes_of(heap: Global, packet: &Packet) -> Result<Vec<u8>, Fault>
    ensures { IfOk result (λ v. v.items ≡ bytes_for (packet_of packet.now)) }
{
    let mut bytes = Vec::new(heap);
    match packet {
        Packet::Query(asked) => write_query(asked, &mut bytes)?,
        Packet::Response(told) => write_response(told, &mut bytes)?,
    }
    Ok(bytes)
}
