// How a zone fares that is sent in parts, and put together from them.
use cache::{Moment, QueryId};
use names::{Fault, Name};
use std::alloc::Global;
use std::{fs, io};
use transfers::{Joining, split};
use wire::{Packet, PartHead, PartPacket};
use zones::Zone;
use zonetext::{load, write};

// A part, how many sets it has, and its packet.
#[derive(Drop)]
struct Sent {
    head: PartHead,
    sets: usize,
    packet: Vec<u8>,
}

// The parts as the zone's owner sends them.
fn all_sent(heap: Global, zone: &Zone) -> Result<Vec<Sent>, Fault> {
    let parts = split(heap, zone, QueryId(1), Moment(u64::MAX))?;
    let mut all = Vec::with_capacity(heap, parts.len())?;
    for part in parts.as_slice() {
        let (head, sets) = (part.head, part.sets.len());
        let mut packet = Vec::new(heap);
        head.write(part.sets, &mut packet)?;
        all.push(Sent { head, sets, packet })?;
    }
    Ok(all)
}

fn print_sent(rt: &HostRuntime, all: &[Sent]) -> io::Result<()> {
    for sent in all {
        let (part, of) = (sent.head.part, sent.head.of);
        let (sets, bytes) = (sent.sets, sent.packet.len());
        println!(rt; "part {part} of {of}: {sets} sets, {bytes} bytes")?;
    }
    Ok(())
}

fn part_in(heap: Global, packet: &[u8]) -> Result<PartPacket, Fault> {
    match Packet::read(heap, packet)? {
        Packet::Part(part) => Ok(part),
        _ => Err(Fault::Malformed),
    }
}

// The last one comes first, and each comes twice.
fn put_together(heap: Global, apex: &Name, all: &[Sent]) -> Result<Option<Zone>, Fault> {
    let Some(last) = all.last() else {
        return Ok(None);
    };
    let mut joining = Joining::begin(heap, *apex, part_in(heap, last.packet.as_slice())?)?;
    for sent in all.iter().rev() {
        joining.take(part_in(heap, sent.packet.as_slice())?)?;
        joining.take(part_in(heap, sent.packet.as_slice())?)?;
    }
    Ok(joining.finish().ok())
}

// Whether the parts together are written as the zone is.
fn make_it_again(heap: Global, zone: &Zone, all: &[Sent]) -> Result<bool, Fault> {
    let Some(joined) = put_together(heap, zone.apex(), all)? else {
        return Ok(false);
    };
    Ok(write(heap, zone)?.as_slice() == write(heap, &joined)?.as_slice())
}

fn print_outcome(rt: &HostRuntime, outcome: Result<bool, Fault>) -> io::Result<()> {
    match outcome {
        Ok(true) => println!(rt; "together they are the zone"),
        Ok(false) => println!(rt; "together they are not the zone"),
        Err(fault) => println!(rt; "{fault}"),
    }
}

pub fn print_parts(rt: &HostRuntime, heap: Global, file: &str) -> io::Result<()> {
    let text = fs::read(rt, file)?;
    let Ok(zone) = load(heap, None, text.as_slice()) else {
        return println!(rt; "no zone's text");
    };
    let all = match all_sent(heap, &zone) {
        Ok(all) => all,
        Err(fault) => return println!(rt; "{fault}"),
    };
    print_sent(rt, all.as_slice())?;
    print_outcome(rt, make_it_again(heap, &zone, all.as_slice()))
}
