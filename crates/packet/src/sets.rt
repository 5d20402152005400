// Record sets, as they stand in a zone's text, but with whole names.
use crate::hex::print_hex;
use records::{Address, Data, RecordSet};
use std::io;

pub fn print_addresses(rt: &HostRuntime, addresses: &[Address]) -> io::Result<()> {
    for address in addresses {
        print!(rt; " {address}")?;
    }
    Ok(())
}

// Can it be printed between quotes?
fn is_plain(text: &[u8]) -> bool {
    text.iter().all(|b| matches!(*b, b' '..=b'~') && *b != b'"')
}

// A text that can't be printed is shown byte by byte.
fn print_text(rt: &HostRuntime, text: &[u8]) -> io::Result<()> {
    print!(rt; " ")?;
    if !is_plain(text) {
        return print_hex(rt, text);
    }
    print!(rt; "\"")?;
    for b in text {
        let letter = char::from(*b);
        print!(rt; "{letter}")?;
    }
    print!(rt; "\"")
}

fn print_data(rt: &HostRuntime, data: &Data) -> io::Result<()> {
    match data {
        Data::Addresses(addresses) => print_addresses(rt, addresses.as_slice())?,
        Data::Delegation(to) => print_addresses(rt, to.servers.as_slice())?,
        Data::Alias(to) => print!(rt; " {to}")?,
        Data::Texts(texts) => {
            for text in texts {
                print_text(rt, text.as_slice())?;
            }
        }
        Data::Others(pieces) => {
            for piece in pieces {
                print!(rt; " ")?;
                print_hex(rt, piece.as_slice())?;
            }
        }
    }
    Ok(())
}

pub fn print_set(rt: &HostRuntime, set: &RecordSet) -> io::Result<()> {
    let (name, kind, ttl) = (set.name(), set.kind().number(), set.ttl().0);
    print!(rt; "  {name} {kind} {ttl}")?;
    print_data(rt, set.data())?;
    println!(rt; "")
}
