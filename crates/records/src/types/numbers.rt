// Kinds and serials: which there are, and what is asked of them.
ghost use Rattle.std.specs.Prelude.{◌≡◌, Some};
ghost use Rattle.meaning.specs.Model.{delegates, aliases, plain, newer};
ghost use Rattle.records.specs.Numbers.{kind_of, kind_given, serial_of, serial_given};
ghost use Rattle.records.specs.Contents.{address_text};

use super::{Address, Kind, Serial};
use names::Fault;
use std::fmt;

impl Kind {
    // The kinds that mean more than bytes.
    pub const ADDRESS: Kind = Kind { number: 1 };

    pub const TEXT: Kind = Kind { number: 2 };

    pub const DELEGATION: Kind = Kind { number: 4 };

    pub const ALIAS: Kind = Kind { number: 5 };

    // A getter, and no `From`: `kind.number()` reads plainer than `u8::from(kind)`.
    pub fn number(self) -> u8
        ensures { result ≡ self.number }
    {
        self.number
    }

    // Does a set of this kind refer to another zone?
    pub fn is_delegation(self) -> bool
        ensures { result ≡ delegates self.number }
    {
        self == Kind::DELEGATION
    }

    pub fn is_alias(self) -> bool
        ensures { result ≡ aliases self.number }
    {
        self == Kind::ALIAS
    }

    // Are its data bytes that mean nothing here?
    pub fn is_plain(self) -> bool
        ensures { result ≡ plain self.number }
    {
        self != Kind::ADDRESS && self != Kind::TEXT && !self.is_delegation() && !self.is_alias()
    }
}

impl TryFrom<u8> for Kind {
    type Error = Fault;

    ghost try_from_gives = { λ n r. kind_given r ≡ kind_of n };

    fn try_from(number: u8) -> Result<Kind, Fault> {
        if (1..=31).contains(&number) {
            Ok(Kind { number })
        } else {
            Err(Fault::BadName)
        }
    }
}

impl Serial {
    // A getter, as a kind's.
    pub fn number(self) -> u64
        ensures { result ≡ self.number }
    {
        self.number
    }

    pub fn is_newer_than(self, other: Serial) -> bool
        ensures { result ≡ newer self.number other.number }
    {
        self > other
    }
}

impl TryFrom<u64> for Serial {
    type Error = Fault;

    ghost try_from_gives = { λ n r. serial_given r ≡ serial_of n };

    fn try_from(number: u64) -> Result<Serial, Fault> {
        if number >= 1 {
            Ok(Serial { number })
        } else {
            Err(Fault::StaleSerial)
        }
    }
}

impl fmt::Display for Address {
    ghost output = { λ a. Some (address_text a) };

    fn fmt<W: fmt::Write>(&self, f: &mut fmt::Formatter<W>) -> fmt::Result {
        let number = u64::from_be_bytes(self.0);
        write!(f, "{number:016x}")
    }
}
