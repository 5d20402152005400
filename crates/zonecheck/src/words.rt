// Faults and zones in words.
use names::Fault;
use records::RecordSet;
use std::io;
use zones::Zone;
use zonetext::{outlasts_a_day, points_nowhere};

pub fn words_of(fault: Fault) -> &'static str {
    match fault {
        Fault::Malformed =>
            "not the line that is due here, or it can't be divided, or above 1,200 bytes",
        Fault::BadName => "a name that is none, or a kind that isn't there",
        Fault::BadData => "data that don't fit their kind",
        Fault::Misplaced => "a set outside of the zone, or a second one of its name and kind",
        Fault::Conflict => "an alias beside another set, or a cut at the top",
        Fault::StaleSerial => "a number that is 0",
        Fault::TooMuch => "more than 4,096 sets, or 1 MiB in all",
        Fault::NoMemory => "the computer's memory ended, which says nothing of the text",
        _ => "no fault of a text",
    }
}

fn warn_of_set(rt: &HostRuntime, file: &str, zone: &Zone, set: &RecordSet) -> io::Result<()> {
    let name = set.name();
    let kind = set.kind().number();
    if zone.is_hidden(set) {
        println!(rt;
            "{file}: warning: {name} {kind} is never told, since there is a cut at its name or above it"
        )?;
    } else if points_nowhere(zone, set) {
        println!(rt;
            "{file}: warning: {name} {kind} is an alias of a name at which nothing stands"
        )?;
    }
    if outlasts_a_day(set.ttl()) {
        println!(rt;
            "{file}: warning: {name} {kind} has a time above a day, which counts as a day"
        )?;
    }
    Ok(())
}

// What the zone has, then a line for each thing to look at.
pub fn print_zone(rt: &HostRuntime, file: &str, zone: &Zone) -> io::Result<()> {
    let apex = zone.apex();
    let serial = zone.serial().number();
    let sets = zone.sets().len();
    let bytes = zone.transfer_len();
    println!(rt; "{file}: {apex}, number {serial}, {sets} sets, {bytes} bytes")?;
    if outlasts_a_day(zone.negative()) {
        println!(rt;
            "{file}: warning: the time of what isn't there is above a day, and counts as a day"
        )?;
    }
    for set in zone.sets() {
        warn_of_set(rt, file, zone, set)?;
    }
    Ok(())
}
