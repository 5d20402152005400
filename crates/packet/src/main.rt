// Shows what packets say, or why they are none: `packet HEX ..`, or without arguments a table from standard input, where a line
// `packet HEX` is shown, a line `cuts HEX` is read at every length, of `parts FILE` the zone of a text is sent in parts and put
// together, and any other line is a heading.
#![tactic(auto)]

mod cuts;
mod hex;
mod parts;
mod saying;
mod sets;
mod words;

use cuts::print_cuts;
use hex::bytes_in;
use parts::print_parts;
use saying::print_packet;
use std::alloc::Global;
use std::io::{BufRead, BufReader};
use std::process::ExitCode;
use std::{env, io};
use wire::Packet;
use words::words_of;

// Whether it is a packet.
fn show(rt: &HostRuntime, heap: Global, digits: &str) -> io::Result<bool> {
    let Some(bytes) = bytes_in(heap, digits.as_bytes())? else {
        println!(rt; "no bytes in hexadecimal")?;
        return Ok(false);
    };
    match Packet::read(heap, bytes.as_slice()) {
        Ok(packet) => {
            print_packet(rt, &packet)?;
            Ok(true)
        }
        Err(fault) => {
            let words = words_of(fault);
            println!(rt; "{fault}: {words}")?;
            Ok(false)
        }
    }
}

fn show_line(rt: &HostRuntime, heap: Global, line: &str) -> io::Result<()> {
    let (form, rest) = line.split_once(' ').unwrap_or((line, ""));
    match form {
        "packet" => {
            show(rt, heap, rest)?;
            Ok(())
        }
        "cuts" => print_cuts(rt, heap, rest),
        "parts" => print_parts(rt, heap, rest),
        _ => println!(rt; "{line}"),
    }
}

fn show_table(rt: &HostRuntime, heap: Global) -> io::Result<()> {
    for line in BufReader::new(heap, rt.stdin())?.lines(heap) {
        show_line(rt, heap, line?.as_str())?;
    }
    Ok(())
}

// Whether all of them are packets.
fn run(rt: &HostRuntime, heap: Global) -> io::Result<bool> {
    let mut all_good = true;
    let mut shown = 0u64;
    let mut args = env::args(rt)?;
    let _program = args.next();
    for digits in args {
        shown = shown.saturating_add(1);
        if !show(rt, heap, digits.as_str())? {
            all_good = false;
        }
    }
    if shown == 0 {
        show_table(rt, heap)?;
    }
    Ok(all_good)
}

fn main(rt: HostRuntime) -> io::Result<ExitCode> {
    let all_good = run(&rt, rt.alloc())?;
    Ok(if all_good {
        ExitCode::SUCCESS
    } else {
        ExitCode::FAILURE
    })
}
