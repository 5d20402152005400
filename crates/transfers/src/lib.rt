// Zones in parts: cut into packets by the one that has a zone, and put together by the one that keeps a copy.
#![tactic(auto)]

ghost use Rattle.transfers.specs.Splitting.{SplitLaws};
ghost use Rattle.transfers.specs.TransferLaws.{TransferLaws};

mod joining;
mod splitting;

pub use joining::Joining;
pub use splitting::{Part, split};

// Splitting gives the zone's sets and no others, in parts that keep the rules of packets and are as full as can be.
pub fn split_laws()
    ensures { SplitLaws }
{
    wire::packet_laws();
}

// Parts of a zone make it again in whatever order they come, and parts of two versions never make one.
pub fn transfer_laws()
    ensures { TransferLaws }
{
    split_laws();
}
