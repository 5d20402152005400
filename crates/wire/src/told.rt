// What a response tells.
use cache::Referral;
use names::Name;

pub mod checking;
pub mod reading;
pub mod writing;

// Data are pieces: what kind they fit is judged beside the query. The last two are told to stubs only.
#[derive(Drop)]
pub enum Told {
    Data(Vec<Vec<u8>>),
    Alias(Name),
    Referral(Referral),
    NoData,
    NoName,
    Nowhere,
    TooLong,
}
