// The pieces of a list, with memory of their own.
ghost use Rattle.std.specs.Prelude.{◌≡◌, ℕ, List, map, vec_items, Ok, Err, if◌then◌else◌};
ghost use Rattle.names.specs.declared.fault.Fault.TheVariants.{BadData};
ghost use Rattle.names.specs.Wire.{wire};
ghost use Rattle.records.specs.Contents.{bytes_of};
ghost use Rattle.wire.specs.Given.{Reads};
ghost use Rattle.wire.specs.Parts.{are_addresses};

use crate::fields::cut_piece;
use names::Fault;
use records::Address;
use std::alloc::Global;

pub fn pieces(heap: Global, list: &[u8]) -> Result<Vec<Vec<u8>>, Fault>
    ensures { (ps : List (List ℕ)) → list.now ≡ wire ps → Reads (λ v. map vec_items (vec_items v)) (Ok ps) result }
{
    let [count, rest @ ..] = list else {
        return Ok(Vec::new(heap));
    };
    let mut pieces = Vec::with_capacity(heap, *count as usize)?;
    let mut rest = rest;
    while let Some((piece, after)) = cut_piece(rest) {
        pieces.push(Vec::from_slice(heap, piece)?)?;
        rest = after;
    }
    Ok(pieces)
}

// Each has 8 bytes.
pub fn addresses(heap: Global, list: &[u8]) -> Result<Vec<Address>, Fault>
    ensures { (ps : List (List ℕ)) → list.now ≡ wire ps → Reads (λ v. map bytes_of (vec_items v)) (if are_addresses ps then Ok ps else Err BadData) result }
{
    let [count, rest @ ..] = list else {
        return Ok(Vec::new(heap));
    };
    let mut addresses = Vec::with_capacity(heap, *count as usize)?;
    let mut rest = rest;
    while let Some((piece, after)) = cut_piece(rest) {
        let Ok(bytes) = <[u8; 8]>::try_from(piece) else {
            return Err(Fault::BadData);
        };
        addresses.push(Address(bytes))?;
        rest = after;
    }
    Ok(addresses)
}
