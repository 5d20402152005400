// Queries in bytes, each read, looked up and answered in bytes.
use crate::asking::Question;
use crate::load::apex;
use authority::answer;
use cache::QueryId;
use names::Fault;
use std::alloc::Global;
use wire::{MAX_PACKET, Packet, QueryPacket};
use zones::Zone;

pub fn queries(heap: Global, questions: &[Question]) -> Result<Vec<Vec<u8>>, Fault> {
    let mut queries = Vec::with_capacity(heap, questions.len())?;
    let mut id: u64 = 0;
    for question in questions {
        id = id.wrapping_add(1);
        let query = QueryPacket::new(QueryId(id), apex()?, question.kind, question.name)?;
        let mut bytes = Vec::new(heap);
        Packet::Query(query).write(&mut bytes)?;
        queries.push(bytes)?;
    }
    Ok(queries)
}

// How many bytes are sent in answer to one query.
fn serve(heap: Global, zone: &Zone, query: &[u8], out: &mut Vec<u8>) -> Result<u64, Fault> {
    out.clear();
    if let Packet::Query(query) = Packet::read(heap, query)? {
        answer(zone, &query, out)?;
    }
    Ok(out.len() as u64)
}

// How many bytes are sent in answer to so many queries, in turn, again and again.
pub fn served(heap: Global, zone: &Zone, queries: &[Vec<u8>], wanted: u64) -> Result<u64, Fault> {
    let mut out = Vec::with_capacity(heap, MAX_PACKET)?;
    let mut sent: u64 = 0;
    for (_, query) in (0..wanted).zip(queries.iter().cycle()) {
        sent = sent.wrapping_add(serve(heap, zone, query.as_slice(), &mut out)?);
    }
    Ok(sent)
}
