// Why an input is refused: one list for every layer of the service.
ghost use Rattle.std.specs.Prelude.{◌≡◌, Some};
ghost use Rattle.names.specs.declared.fault.Fault.TheVariants.{NoMemory};
ghost use Rattle.names.specs.Faults.{number_of, fault_text, FaultLaws};

use std::alloc::{AllocError, AllocFailed};
use std::fmt;

#[derive(Clone, Copy, PartialEq, Eq, Debug)]
pub enum Fault {
    // A packet or line of unknown kind, of a wrong length, or above 1,200 bytes.
    Malformed,
    // A name with too many or wrong labels, or a kind that isn't there.
    BadName,
    // Data that don't fit their kind, more than 16 pieces or 600 bytes, a delegation without an address.
    BadData,
    // A record set outside its zone, or there already.
    Misplaced,
    // An alias beside other sets, or a delegation at the apex.
    Conflict,
    // A serial that is 0, or not newer than the zone's.
    StaleSerial,
    // More than 4,096 sets in a zone, 64 zones, or 1 MiB in all.
    TooMuch,
    // A response to no pending query.
    NotPending,
    // A response for another apex than its query's.
    WrongApex,
    // Transfer parts that don't fit together.
    BadTransfer,
    // An entry was forgotten to make room: a notice, not a refusal.
    CacheFull,
    // Memory ran out: the one fault that says nothing of the input, so it has no number.
    NoMemory,
}

impl Fault {
    // The number by which packets, scripts and output name the fault.
    pub fn number(self) -> Option<u8>
        ensures { result ≡ number_of self }
    {
        match self {
            Fault::Malformed => Some(1),
            Fault::BadName => Some(2),
            Fault::BadData => Some(3),
            Fault::Misplaced => Some(4),
            Fault::Conflict => Some(5),
            Fault::StaleSerial => Some(6),
            Fault::TooMuch => Some(7),
            Fault::NotPending => Some(8),
            Fault::WrongApex => Some(9),
            Fault::BadTransfer => Some(10),
            Fault::CacheFull => Some(11),
            Fault::NoMemory => None,
        }
    }
}

impl fmt::Display for Fault {
    ghost output = { λ f. Some (fault_text f) };

    fn fmt<W: fmt::Write>(&self, f: &mut fmt::Formatter<W>) -> fmt::Result {
        match self.number() {
            Some(number) => write!(f, "fault {number}"),
            None => f.write_str("out of memory"),
        }
    }
}

impl From<AllocError> for Fault {
    ghost from_gives = { λ _ r. r ≡ NoMemory };

    fn from(_e: AllocError) -> Fault {
        Fault::NoMemory
    }
}

impl<T: Drop> From<AllocFailed<T>> for Fault {
    ghost from_gives = { λ _ r. r ≡ NoMemory };

    fn from(_e: AllocFailed<T>) -> Fault {
        Fault::NoMemory
    }
}

pub fn fault_laws()
    ensures { FaultLaws }
{}
