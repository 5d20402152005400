// Faults in words.
use names::Fault;

pub fn words_of(fault: Fault) -> &'static str {
    match fault {
        Fault::Malformed =>
            "of unknown kind, cut short, with bytes left over, or above 1,200 bytes",
        Fault::BadName => "a name that is none, or a kind that isn't there",
        Fault::BadData => "data that don't fit their kind, or too many or too few of them",
        Fault::Misplaced => "a name outside of the zone that is asked or answers",
        Fault::Conflict => "a cut at the zone's own top",
        Fault::StaleSerial => "a zone's number that is 0",
        Fault::NoMemory => "the computer's memory ended, which says nothing of the packet",
        _ => "no fault of a packet by itself",
    }
}
