// How words, packets and answers are written.
use crate::ages::Ages;
use crate::net::{Asked, Packet, Told};
use crate::walk::Meaning;
use cache::{Entry, Moment, Said};
use names::Fault;
use records::{Address, Data};
use resolver::{Answer, Resolver, Shown};
use std::io;
use walks::walk;
use zonetext::Refusal;

pub fn report(rt: &HostRuntime, line: u64, fault: Fault) -> io::Result<()> {
    match fault {
        Fault::NoMemory => println!(rt; "line {line}: {fault}"),
        _ => println!(rt; "line {line} {fault}"),
    }
}

fn print_addresses(rt: &HostRuntime, addresses: &[Address]) -> io::Result<()> {
    for address in addresses {
        print!(rt; " {address}")?;
    }
    Ok(())
}

fn print_data(rt: &HostRuntime, data: &Data) -> io::Result<()> {
    print!(rt; "data")?;
    match data {
        Data::Addresses(addresses) => print_addresses(rt, addresses.as_slice()),
        Data::Alias(to) => print!(rt; " {to}"),
        Data::Delegation(to) => print_addresses(rt, to.servers.as_slice()),
        Data::Texts(pieces) => print!(rt; " {} texts", pieces.len()),
        Data::Others(pieces) => print!(rt; " {} pieces", pieces.len()),
    }
}

fn print_said(rt: &HostRuntime, said: &Said) -> io::Result<()> {
    match said {
        Said::Data(data) => print_data(rt, data),
        Said::Alias(to) => print!(rt; "alias {to}"),
        Said::Referral(referral) => {
            let name = referral.name;
            print!(rt; "cut {name}")?;
            print_addresses(rt, referral.to.servers.as_slice())
        }
        Said::NoData => print!(rt; "empty"),
        Said::NoName => print!(rt; "absent"),
    }
}

fn print_query(rt: &HostRuntime, number: u64, asked: &Asked) -> io::Result<()> {
    let asker = asked.asker;
    let server = asked.server();
    let id = asked.query.id.0;
    let key = &asked.query.key;
    let apex = key.apex;
    let name = key.name;
    let kind = key.kind.number();
    println!(rt;
        "packet {number}: asker {asker} asks server {server}: number {id}, {apex} on {name} {kind}"
    )
}

fn print_told(rt: &HostRuntime, number: u64, told: &Told) -> io::Result<()> {
    let server = told.server;
    let asker = told.asker;
    let id = told.id.0;
    let apex = told.apex;
    print!(rt; "packet {number}: server {server} tells asker {asker}: number {id}, {apex} says ")?;
    print_said(rt, &told.word.said)?;
    let ttl = told.word.ttl.0;
    println!(rt; ", time {ttl}")
}

pub fn print_packet(rt: &HostRuntime, number: u64, packet: &Packet) -> io::Result<()> {
    match packet {
        Packet::Query(asked) => print_query(rt, number, asked),
        Packet::Response(told) => print_told(rt, number, told),
    }
}

// As they go over the net, in hexadecimal.
pub fn print_bytes(rt: &HostRuntime, bytes: &[u8]) -> io::Result<()> {
    print!(rt; "  ")?;
    for byte in bytes {
        print!(rt; "{byte:02x}")?;
    }
    println!(rt; "")
}

fn print_answer(rt: &HostRuntime, resolver: &Resolver, answer: Answer) -> io::Result<()> {
    match answer {
        Answer::At(place) => match resolver.cache().get(place) {
            Some(entry) => print_said(rt, &entry.said),
            None => Ok(()),
        },
        Answer::TooLong => print!(rt; "too long"),
        Answer::Nowhere => print!(rt; "nowhere"),
    }
}

pub fn print_shown(
    rt: &HostRuntime,
    asker: u64,
    resolver: &Resolver,
    shown: &Shown,
) -> io::Result<()> {
    let moment = resolver.moment().0;
    let name = shown.request.name;
    let kind = shown.request.kind.number();
    print!(rt; "moment {moment}: asker {asker} shows {name} {kind}: ")?;
    print_answer(rt, resolver, shown.outcome.answer)?;
    let left = shown.outcome.left;
    println!(rt; ", for {left}")
}

pub fn print_meaning(rt: &HostRuntime, meaning: &Meaning) -> io::Result<()> {
    print!(rt; "  it means ")?;
    match meaning {
        Meaning::Word(word) => print_said(rt, &word.said)?,
        Meaning::TooLong => print!(rt; "too long")?,
        Meaning::Nowhere => print!(rt; "nowhere")?,
    }
    println!(rt; "")
}

fn print_word(rt: &HostRuntime, ages: &Ages, entry: &Entry, now: Moment) -> io::Result<()> {
    let apex = entry.key.apex;
    print!(rt; "  {apex} said ")?;
    print_said(rt, &entry.said)?;
    let ttl = entry.numbers.ttl.0;
    print!(rt; ", time {ttl}")?;
    match ages.age(entry.numbers.id, now) {
        Some(age) => println!(rt; ", age {age}"),
        None => println!(rt; ", of unknown age"),
    }
}

// A line for each word on the way.
pub fn print_way(
    rt: &HostRuntime,
    ages: &Ages,
    resolver: &Resolver,
    shown: &Shown,
) -> io::Result<()> {
    let cache = resolver.cache();
    let now = resolver.moment();
    let trace = walk(cache, now, &shown.request.name, shown.request.kind).trace;
    for i in 0..trace.len() {
        let place = trace.get(i);
        if let Some(entry) = place.and_then(|place| cache.get(place)) {
            print_word(rt, ages, entry, now)?;
        }
    }
    Ok(())
}

// A zone's text that isn't published: its first faulty line, and its fault.
pub fn print_refusal(rt: &HostRuntime, line: u64, file: &str, refusal: &Refusal) -> io::Result<()> {
    let inner = refusal.line;
    let fault = refusal.fault;
    println!(rt; "line {line}: {file} line {inner}: {fault}")
}
