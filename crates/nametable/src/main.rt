// Runs a table of names, a case to a line, and prints what comes of each: `read TEXT`, `whole TEXT`, `below APEX TEXT`,
// `wire HEX` and `order NAME NAME`.
#![tactic(auto)]

use lines::Words;
use names::{Fault, Name, Reader};
use std::alloc::Global;
use std::cmp::Ordering;
use std::io;
use std::io::{BufRead, BufReader};

fn print_name(rt: &HostRuntime, outcome: Result<Name, Fault>) -> io::Result<()> {
    match outcome {
        Ok(name) => {
            let count = name.label_count();
            println!(rt; "{name} ({count})")
        }
        Err(fault) => println!(rt; "{fault}"),
    }
}

// Small letters alone, so not `char::to_digit`, which takes capitals too.
fn hex_digit(b: u8) -> io::Result<u8> {
    match b {
        b'0'..=b'9' => Ok(b - b'0'),
        b'a'..=b'f' => Ok(b - b'a' + 10),
        _ => Err(io::Error::other("no hexadecimal digit")),
    }
}

fn hex_bytes(heap: Global, text: &[u8]) -> io::Result<Vec<u8>> {
    let mut out = Vec::new(heap);
    for pair in text.chunks(2) {
        let mut byte: u8 = 0;
        for b in pair {
            byte = byte.wrapping_mul(16).wrapping_add(hex_digit(*b)?);
        }
        out.push(byte)?;
    }
    Ok(out)
}

// How many of the bytes' proper fronts are refused as cut short.
fn count_cut(bytes: &[u8]) -> usize {
    (0..bytes.len())
        .filter(|end| matches!(Reader::new(&bytes[..*end]).name(), Err(Fault::Malformed)))
        .count()
}

// A name from the wire, what is left behind it, how it fares cut short at every length, and whether it is written as it was.
fn print_wire(rt: &HostRuntime, heap: Global, bytes: &[u8]) -> io::Result<()> {
    let mut reader = Reader::new(bytes);
    let outcome = reader.name();
    let left = reader.rest().len();
    let cut = count_cut(bytes);
    let len = bytes.len();
    print!(rt; "{len} bytes, {left} left, {cut} cuts: ")?;
    if let Ok(name) = outcome {
        let mut out = Vec::new(heap);
        if name.write_wire(&mut out).is_ok() && bytes.starts_with(out.as_slice()) {
            print!(rt; "written back, ")?;
        }
    }
    print_name(rt, outcome)
}

fn print_below(rt: &HostRuntime, apex: &[u8], text: &[u8]) -> io::Result<()> {
    let Ok(apex) = Name::read_whole(apex) else {
        return println!(rt; "no apex");
    };
    print_name(rt, Name::read_below(&apex, text))
}

fn print_order(rt: &HostRuntime, a: &[u8], b: &[u8]) -> io::Result<()> {
    // The second is read only where the first is a name.
    let Ok(a) = Name::read_whole(a) else {
        return println!(rt; "no name");
    };
    let Ok(b) = Name::read_whole(b) else {
        return println!(rt; "no name");
    };
    let order = match a.cmp(&b) {
        Ordering::Less => "before",
        Ordering::Equal => "same",
        Ordering::Greater => "after",
    };
    let within = a.is_within(&b);
    println!(rt; "{order}, within: {within}")
}

fn print_case(rt: &HostRuntime, heap: Global, line: &[u8]) -> io::Result<()> {
    let mut words = Words::new(line);
    let form = words.next().unwrap_or(b"");
    let first = words.next().unwrap_or(b"");
    let second = words.next().unwrap_or(b"");
    match form {
        b"read" => print_name(rt, Name::read(first)),
        b"whole" => print_name(rt, Name::read_whole(first)),
        b"wire" => print_wire(rt, heap, hex_bytes(heap, first)?.as_slice()),
        b"below" => print_below(rt, first, second),
        _ => print_order(rt, first, second),
    }
}

fn main(rt: HostRuntime) -> io::Result<()> {
    let heap = rt.alloc();
    for line in BufReader::new(heap, rt.stdin())?.split(heap, b'\n') {
        print_case(&rt, heap, line?.as_slice())?;
    }
    Ok(())
}
