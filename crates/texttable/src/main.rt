// Runs a table of zones' texts, a case to a line, and prints what comes of each: `text TEXT`, `old TEXT`, `cuts TEXT`,
// `many N LINES` and `heavy N LINES`.
#![tactic(auto)]

mod cuts;
mod escapes;
mod made;

use cuts::print_cuts;
use escapes::unescape;
use made::{heavy_text, many_text};
use std::alloc::Global;
use std::io;
use std::io::{BufRead, BufReader};
use zones::Zone;
use zonetext::{Refusal, load};

fn print_outcome(rt: &HostRuntime, outcome: Result<Zone, Refusal>) -> io::Result<()> {
    match outcome {
        Ok(zone) => {
            let (apex, serial) = (zone.apex(), zone.serial().number());
            let (sets, bytes) = (zone.sets().len(), zone.transfer_len());
            println!(rt; "ok {apex} {serial} {sets} {bytes}")
        }
        Err(refusal) => println!(rt; "{} {}", refusal.line, refusal.fault),
    }
}

// The zone that was there, for the texts that follow.
fn read_old(rt: &HostRuntime, heap: Global, text: &str) -> io::Result<Option<Zone>> {
    if text.is_empty() {
        println!(rt; "old none")?;
        return Ok(None);
    }
    let text = unescape(heap, text)?;
    let Ok(zone) = load(heap, None, text.as_slice()) else {
        return Err(io::Error::other("an old zone whose text is faulty"));
    };
    let (apex, serial) = (zone.apex(), zone.serial().number());
    println!(rt; "old {apex} {serial}")?;
    Ok(Some(zone))
}

fn form_and_case(line: &str) -> (&str, &str) {
    line.split_once(' ').unwrap_or((line, ""))
}

// How many sets a made text has, and the lines behind them.
fn size_and_lines(heap: Global, case: &str) -> io::Result<(u64, Vec<u8>)> {
    let (size, lines) = case.split_once(' ').unwrap_or((case, ""));
    let Some(size) = lines::number(size.as_bytes()) else {
        return Err(io::Error::other("no number of sets"));
    };
    Ok((size, unescape(heap, lines)?))
}

fn print_case(rt: &HostRuntime, heap: Global, old: Option<&Zone>, line: &str) -> io::Result<()> {
    let (form, case) = form_and_case(line);
    let text = match form {
        "text" => unescape(heap, case)?,
        "cuts" => return print_cuts(rt, heap, old, unescape(heap, case)?.as_slice()),
        "many" => {
            let (size, lines) = size_and_lines(heap, case)?;
            many_text(heap, size, lines.as_slice())?
        }
        "heavy" => {
            let (size, lines) = size_and_lines(heap, case)?;
            heavy_text(heap, size, lines.as_slice())?
        }
        // Headings.
        _ => return println!(rt; "{line}"),
    };
    print_outcome(rt, load(heap, old, text.as_slice()))
}

fn main(rt: HostRuntime) -> io::Result<()> {
    let heap = rt.alloc();
    let mut old = None;
    for line in BufReader::new(heap, rt.stdin())?.lines(heap) {
        let line = line?;
        match form_and_case(line.as_str()) {
            ("old", text) => old = read_old(&rt, heap, text)?,
            _ => print_case(&rt, heap, old.as_ref(), line.as_str())?,
        }
    }
    Ok(())
}
