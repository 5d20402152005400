// Packets: bytes on the wire, read exactly or refused.
#![tactic(auto)]

mod buffer;
mod fields;
mod packet;
mod part;
mod pieces;
mod query;
mod reply;
mod request;
mod response;
mod sets;
mod told;
mod what;
mod word;

pub use buffer::MAX_PACKET;
pub use packet::{Packet, packet_laws};
pub use part::{PartHead, PartPacket};
pub use query::QueryPacket;
pub use reply::write_reply;
pub use request::RequestPacket;
pub use response::ResponsePacket;
pub use told::Told;
pub use word::write_word;
