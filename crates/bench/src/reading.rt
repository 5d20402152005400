// The text of a zone, as its owner writes it, and reading it again and again.
use crate::load::{Plan, label};
use names::Fault;
use std::alloc::Global;
use zonetext::load;

const HEADS: &[u8] = b"top upperton\nnumber 1\ntimes 60 600 86400\n";

// So many lines of sets: what stands before their name's label, its class, and what stands behind it.
fn put(
    text: &mut Vec<u8>,
    count: u64,
    before: &[u8],
    class: u8,
    behind: &[u8],
) -> Result<(), Fault> {
    for number in 0..count {
        text.extend_from_slice(before)?;
        text.extend_from_slice(&label(class, number))?;
        text.extend_from_slice(behind)?;
    }
    Ok(())
}

fn put_aliases(text: &mut Vec<u8>, count: u64) -> Result<(), Fault> {
    for number in 0..count {
        put_alias(text, number)?;
    }
    Ok(())
}

fn put_alias(text: &mut Vec<u8>, number: u64) -> Result<(), Fault> {
    text.extend_from_slice(b"set ")?;
    text.extend_from_slice(&label(b'b', number))?;
    text.extend_from_slice(b" 5 3600 ")?;
    text.extend_from_slice(&label(b'a', number))?;
    text.extend_from_slice(b"\n")?;
    Ok(())
}

// The text of the zone that `load::zone` makes.
pub fn text(heap: Global, plan: &Plan) -> Result<Vec<u8>, Fault> {
    let mut text = Vec::from_slice(heap, HEADS)?;
    let address = b" 1 3600 0000000000000009\n";
    put(&mut text, plan.addresses, b"set ", b'a', address)?;
    put_aliases(&mut text, plan.aliases)?;
    let delegation = b" 4 3600 0000000000000009\n";
    put(&mut text, plan.delegations, b"set ", b'd', delegation)?;
    put(&mut text, plan.empties, b"set x.", b'e', address)?;
    put(&mut text, plan.texts, b"set ", b't', b" 2 3600 \"t\"\n")?;
    Ok(text)
}

// How many sets are read in all, where the text is loaded so many times.
pub fn sets_read(heap: Global, text: &[u8], times: u64) -> Result<u64, Fault> {
    let mut read: u64 = 0;
    for _ in 0..times {
        let zone = load(heap, None, text).map_err(|refusal| refusal.fault)?;
        read = read.saturating_add(zone.sets().len() as u64);
    }
    Ok(read)
}
