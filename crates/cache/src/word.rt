// What a zone said of a name and kind, and for how long that may be remembered.
use names::Name;
use records::{Data, Delegation, Ttl};

pub mod copying;

// In seconds since the resolver began.
#[derive(Clone, Copy, PartialEq, Eq, PartialOrd, Ord, Debug)]
pub struct Moment(pub u64);

// A query's number, drawn once.
#[derive(Clone, Copy, PartialEq, Eq, PartialOrd, Ord, Debug)]
pub struct QueryId(pub u64);

// The zone that a delegation leads to, with its servers.
#[derive(Drop)]
pub struct Referral {
    pub name: Name,
    pub to: Delegation,
}

#[derive(Drop)]
pub enum Said {
    Data(Data),
    Alias(Name),
    Referral(Referral),
    NoData,
    NoName,
}

#[derive(Drop)]
pub struct Word {
    pub said: Said,
    pub ttl: Ttl,
}
