// What packets say.
use crate::hex::print_hex;
use crate::sets::{print_addresses, print_set};
use cache::Moment;
use std::io;
use wire::{Packet, PartHead, PartPacket, QueryPacket, RequestPacket, ResponsePacket, Told};

fn print_query(rt: &HostRuntime, query: &QueryPacket) -> io::Result<()> {
    let (id, apex) = (query.id().0, query.apex());
    let (name, kind) = (query.name(), query.kind().number());
    println!(rt; "asks: number {id}, {apex} on {name} {kind}")
}

fn print_pieces(rt: &HostRuntime, pieces: &[Vec<u8>]) -> io::Result<()> {
    for piece in pieces {
        print!(rt; " ")?;
        print_hex(rt, piece.as_slice())?;
    }
    Ok(())
}

fn print_told(rt: &HostRuntime, told: &Told) -> io::Result<()> {
    match told {
        Told::Data(pieces) => {
            print!(rt; "data")?;
            print_pieces(rt, pieces.as_slice())
        }
        Told::Alias(to) => print!(rt; "alias {to}"),
        Told::Referral(referral) => {
            let name = referral.name;
            print!(rt; "cut {name}")?;
            print_addresses(rt, referral.to.servers.as_slice())
        }
        Told::NoData => print!(rt; "empty"),
        Told::NoName => print!(rt; "absent"),
        Told::Nowhere => print!(rt; "nowhere"),
        Told::TooLong => print!(rt; "too long"),
    }
}

fn print_response(rt: &HostRuntime, response: &ResponsePacket) -> io::Result<()> {
    let (id, apex) = (response.id().0, response.apex());
    print!(rt; "tells: number {id}, {apex} says ")?;
    print_told(rt, response.told())?;
    let ttl = response.ttl().0;
    println!(rt; ", time {ttl}")
}

fn print_request(rt: &HostRuntime, request: &RequestPacket) -> io::Result<()> {
    let (id, apex, known) = (request.id.0, request.apex, request.known);
    println!(rt; "looks: number {id}, {apex} above {known}")
}

// From an owner a zone is as of the moment at which it is taken.
fn print_moment(rt: &HostRuntime, moment: Moment) -> io::Result<()> {
    match moment.0 {
        u64::MAX => print!(rt; "the owner's"),
        moment => print!(rt; "as of {moment}"),
    }
}

fn print_head(rt: &HostRuntime, head: &PartHead) -> io::Result<()> {
    let (id, part, of) = (head.id.0, head.part, head.of);
    let serial = head.serial.number();
    print!(rt; "brings: number {id}, part {part} of {of}, zone's number {serial}, ")?;
    print_moment(rt, head.moment)?;
    let (negative, refresh, expire) = (
        head.times.negative.0,
        head.times.refresh.0,
        head.times.expire.0,
    );
    println!(rt; ", times {negative} {refresh} {expire}")
}

// A line for each set behind the first.
fn print_part(rt: &HostRuntime, part: &PartPacket) -> io::Result<()> {
    print_head(rt, &part.head)?;
    for set in &part.sets {
        print_set(rt, set)?;
    }
    Ok(())
}

pub fn print_packet(rt: &HostRuntime, packet: &Packet) -> io::Result<()> {
    match packet {
        Packet::Query(query) => print_query(rt, query),
        Packet::Response(response) => print_response(rt, response),
        Packet::Request(request) => print_request(rt, request),
        Packet::Part(part) => print_part(rt, part),
    }
}
