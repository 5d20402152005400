// The numbers of zones, each a type of its own.
ghost use Rattle.std.specs.Prelude.{◌≡◌, true};
ghost use Rattle.meaning.specs.Model.{is_kind, is_serial};

pub mod numbers;

// What a record set holds: 1 an address, 2 a text, 4 a delegation, 5 an alias; the others, up to 31, plain bytes.
#[derive(Clone, Copy, PartialEq, Eq, PartialOrd, Ord, Debug)]
pub struct Kind {
    number: u8,
    ghost there: { is_kind number ≡ true },
}

// For how many seconds something may be remembered.
#[derive(Clone, Copy, PartialEq, Eq, PartialOrd, Ord, Debug)]
pub struct Ttl(pub u32);

// The number of a zone's version; it rises with each change, and is never 0.
#[derive(Clone, Copy, PartialEq, Eq, PartialOrd, Ord, Debug)]
pub struct Serial {
    number: u64,
    ghost set: { is_serial number ≡ true },
}

// Where a server is reached.
#[derive(Clone, Copy, PartialEq, Eq, PartialOrd, Ord, Debug)]
pub struct Address(pub [u8; 8]);
