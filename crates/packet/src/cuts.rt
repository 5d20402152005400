// How a packet fares that is cut short.
use crate::hex::bytes_in;
use std::alloc::Global;
use std::io;
use wire::Packet;

// Every front, from no byte to all but one: how many are packets, and how many are refused with each fault by its number.
pub fn print_cuts(rt: &HostRuntime, heap: Global, digits: &str) -> io::Result<()> {
    let Some(bytes) = bytes_in(heap, digits.as_bytes())? else {
        return println!(rt; "no bytes in hexadecimal");
    };
    let mut read = 0u64;
    let mut refused = [0u64; 8];
    for end in 0..bytes.len() {
        let Err(fault) = Packet::read(heap, &bytes[..end]) else {
            read = read.saturating_add(1);
            continue;
        };
        let number = fault.number().map_or(0, usize::from);
        if let Some(count) = refused.get_mut(number) {
            *count = count.saturating_add(1);
        }
    }
    print!(rt; "read {read}")?;
    for (number, count) in refused.iter().enumerate() {
        if *count > 0 {
            print!(rt; ", fault {number}: {count}")?;
        }
    }
    println!(rt; "")
}
