// Counts what the service does, for a tool that counts instructions: `lookup SETS N` loads a zone of that many sets and asks
// it N questions; `recall QUESTIONS N` lets a resolver learn so many questions and asks it N; `read SETS N` reads the text of a
// zone of that many sets N times; `serve SETS N` reads N queries, and answers each from a zone of that many sets.
#![tactic(auto)]

mod asking;
mod load;
mod reading;
mod recall;
mod serving;

use asking::Question;
use lines::number;
use std::alloc::Global;
use std::{env, fmt, io};
use zones::{Reply, Zone};

// How often each reply came.
#[derive(Clone, Copy, Default)]
struct Tally {
    data: u64,
    alias: u64,
    referral: u64,
    no_data: u64,
    no_name: u64,
    outside: u64,
}

fn count(tally: &mut Tally, zone: &Zone, question: &Question) {
    let place = match zone.lookup(&question.name, question.kind) {
        Some(Reply::Data(_)) => &mut tally.data,
        Some(Reply::Alias(_)) => &mut tally.alias,
        Some(Reply::Referral(_)) => &mut tally.referral,
        Some(Reply::NoData) => &mut tally.no_data,
        Some(Reply::NoName) => &mut tally.no_name,
        None => &mut tally.outside,
    };
    *place = place.wrapping_add(1);
}

// Asks the questions in turn, again and again, until as many were asked as are wanted.
fn ask(zone: &Zone, questions: &[Question], wanted: u64) -> Tally {
    let mut tally = Tally::default();
    for (_, question) in (0..wanted).zip(questions.iter().cycle()) {
        count(&mut tally, zone, question);
    }
    tally
}

impl fmt::Display for Tally {
    fn fmt<W: fmt::Write>(&self, f: &mut fmt::Formatter<W>) -> fmt::Result {
        let (data, alias, referral) = (self.data, self.alias, self.referral);
        writeln!(f, "data {data} alias {alias} referral {referral}")?;
        let (no_data, no_name, outside) = (self.no_data, self.no_name, self.outside);
        write!(f, "no data {no_data} no name {no_name} outside {outside}")
    }
}

fn lookups(rt: &HostRuntime, heap: Global, sets: u64, wanted: u64) -> io::Result<()> {
    let plan = load::Plan::new(sets);
    let made = load::zone(heap, &plan).map_err(|_| io::Error::other("no such zone"))?;
    let questions = asking::mix(heap, &plan).map_err(|_| io::Error::other("no such questions"))?;
    let tally = ask(&made, questions.as_slice(), wanted);
    let loaded = made.sets().len();
    println!(rt; "sets {loaded}")?;
    println!(rt; "{tally}")
}

fn recalls(rt: &HostRuntime, heap: Global, questions: u64, wanted: u64) -> io::Result<()> {
    let none = |_| io::Error::other("nothing is remembered");
    let mut resolver = recall::learned(heap, questions).map_err(none)?;
    let requests = recall::requests(heap, questions).map_err(none)?;
    let answered = recall::answered(heap, &mut resolver, requests.as_slice(), wanted).map_err(
        none,
    )?;
    let entries = resolver.cache().len();
    println!(rt; "entries {entries}")?;
    println!(rt; "answered {answered}")
}

fn readings(rt: &HostRuntime, heap: Global, sets: u64, times: u64) -> io::Result<()> {
    let text = reading::text(heap, &load::Plan::new(sets)).map_err(|_| io::Error::other(
        "no text",
    ))?;
    let read = reading::sets_read(heap, text.as_slice(), times).map_err(|_| io::Error::other(
        "no zone's text",
    ))?;
    let bytes = text.len();
    println!(rt; "bytes {bytes}")?;
    println!(rt; "sets read {read}")
}

fn servings(rt: &HostRuntime, heap: Global, sets: u64, wanted: u64) -> io::Result<()> {
    let none = |_| io::Error::other("nothing is served");
    let plan = load::Plan::new(sets);
    let made = load::zone(heap, &plan).map_err(none)?;
    let questions = asking::mix(heap, &plan).map_err(none)?;
    let queries = serving::queries(heap, questions.as_slice()).map_err(none)?;
    let sent = serving::served(heap, &made, queries.as_slice(), wanted).map_err(none)?;
    println!(rt; "bytes sent {sent}")
}

fn usage(rt: &HostRuntime) -> io::Result<()> {
    println!(rt; "usage: bench lookup SETS N")?;
    println!(rt; "       bench recall QUESTIONS N")?;
    println!(rt; "       bench read SETS N")?;
    println!(rt; "       bench serve SETS N")
}

fn run(rt: &HostRuntime, heap: Global) -> io::Result<()> {
    let mut args = env::args(rt)?;
    let _program = args.next();
    let (Some(mode), Some(size), Some(wanted)) = (args.next(), args.next(), args.next()) else {
        return usage(rt);
    };
    let (Some(size), Some(wanted)) = (number(size.as_bytes()), number(wanted.as_bytes())) else {
        return usage(rt);
    };
    match mode.as_str() {
        "lookup" => lookups(rt, heap, size, wanted),
        "recall" => recalls(rt, heap, size, wanted),
        "read" => readings(rt, heap, size, wanted),
        "serve" => servings(rt, heap, size, wanted),
        _ => usage(rt),
    }
}

fn main(rt: HostRuntime) -> io::Result<()> {
    run(&rt, rt.alloc())
}
