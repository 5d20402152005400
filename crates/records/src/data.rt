// The data of a record set: an enum that says what they are.
use crate::types::Address;
use names::Name;

pub mod copying;
pub mod limits;

// What a delegation says of the zone whose apex is its name.
#[derive(Drop)]
pub struct Delegation {
    pub servers: Vec<Address>,
}

#[derive(Drop)]
pub enum Data {
    Addresses(Vec<Address>),
    Texts(Vec<Vec<u8>>),
    Others(Vec<Vec<u8>>),
    // Beside the other data it would take much room in each set, whatever its kind.
    Alias(Box<Name>),
    Delegation(Delegation),
}
