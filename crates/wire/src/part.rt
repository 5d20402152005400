// A part of a zone's transfer.
use cache::{Moment, QueryId};
use records::{RecordSet, Serial};
use zones::Times;

pub mod reading;
pub mod writing;

pub const FIRST: u8 = 4;

// What stands before the sets: to which request it belongs, of which zone it is, and which part of how many.
#[derive(Clone, Copy)]
pub struct PartHead {
    pub id: QueryId,
    pub serial: Serial,
    // Since when the copy counts; the last moment of all where an owner sends it.
    pub moment: Moment,
    pub times: Times,
    pub part: u16,
    // 0 tells that there is nothing newer: such a part has no sets.
    pub of: u16,
}

#[derive(Drop)]
pub struct PartPacket {
    pub head: PartHead,
    pub sets: Vec<RecordSet>,
}
