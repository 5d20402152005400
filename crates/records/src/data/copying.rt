// Copies with memory of their own.
ghost use Rattle.std.specs.Prelude.{◌≡◌, map, vec_items, MatchResult};
ghost use Rattle.names.specs.declared.fault.Fault.TheVariants.{NoMemory};
ghost use Rattle.records.specs.Contents.{bytes_of, content_of};

use super::{Data, Delegation};
use names::Fault;
use std::alloc::Global;

fn copied_pieces(heap: Global, pieces: &[Vec<u8>]) -> Result<Vec<Vec<u8>>, Fault>
    ensures { MatchResult result (λ v. map vec_items v.items ≡ map vec_items pieces.now) (λ f. f ≡ NoMemory) }
{
    let mut copies = Vec::with_capacity(heap, pieces.len())?;
    for piece in pieces {
        copies.push(Vec::from_slice(heap, piece.as_slice())?)?;
    }
    Ok(copies)
}

impl Delegation {
    pub fn copied(&self, heap: Global) -> Result<Delegation, Fault>
        ensures { MatchResult result (λ d. map bytes_of (vec_items d.servers) ≡ map bytes_of (vec_items self.now.servers)) (λ f. f ≡ NoMemory) }
    {
        let servers = Vec::from_slice(heap, self.servers.as_slice())?;
        Ok(Delegation { servers })
    }
}

impl Data {
    pub fn copied(&self, heap: Global) -> Result<Data, Fault>
        ensures { MatchResult result (λ d. content_of d ≡ content_of self.now) (λ f. f ≡ NoMemory) }
    {
        Ok(match self {
            Data::Addresses(addresses) => {
                Data::Addresses(Vec::from_slice(heap, addresses.as_slice())?)
            }
            Data::Texts(pieces) => Data::Texts(copied_pieces(heap, pieces.as_slice())?),
            Data::Others(pieces) => Data::Others(copied_pieces(heap, pieces.as_slice())?),
            Data::Alias(name) => Data::Alias(Box::new(heap, **name)?),
            Data::Delegation(to) => Data::Delegation(to.copied(heap)?),
        })
    }
}
