// What the pieces of a line stand for: numbers, names and data.
ghost use Rattle.std.specs.Prelude.{◌≡◌, [], ◌∷◌, map, vec_items};
ghost use Rattle.std.specs.Option.{option_map, ok_or};
ghost use Rattle.names.specs.declared.fault.Fault.TheVariants.{BadData};
ghost use Rattle.names.specs.Names.{labels, given};
ghost use Rattle.records.specs.Contents.{bytes_of, content_of};
ghost use Rattle.records.specs.Sets.{set_of as set_of_records};
ghost use Rattle.zonetext.specs.Fields.{number_of, seconds_of, kind_of, name_of, digit_of, byte_of, bytes_in, address_of, text_of, other_of, all_of, bad_name, some_bad_name, alias_to, alias_of, data_of};
ghost use Rattle.zonetext.specs.Texts.{set_in};
ghost use Rattle.zonetext.specs.Readings.{piece_of, Reads};

use crate::division::Piece;
use names::{Fault, Name};
use records::{Address, Data, Delegation, Kind, RecordSet, Ttl};
use std::alloc::Global;

pub fn number(piece: Piece) -> Option<u64>
    ensures { result ≡ number_of (piece_of piece.entry) }
{
    match piece {
        Piece::Word(word) => lines::number(word),
        Piece::Text(_) => None,
    }
}

pub fn seconds(piece: Piece) -> Option<Ttl>
    ensures { option_map (λ t. t.0) result ≡ seconds_of (piece_of piece.entry) }
{
    let seconds = u32::try_from(number(piece)?).ok()?;
    Some(Ttl(seconds))
}

fn kind(piece: Piece) -> Option<Kind>
    ensures { option_map (λ k. k.number) result ≡ kind_of (piece_of piece.entry) }
{
    let number = u8::try_from(number(piece)?).ok()?;
    Kind::try_from(number).ok()
}

// With a last dot the name is whole, without one it stands below the apex.
pub fn name(apex: &Name, piece: Piece) -> Result<Name, Fault>
    ensures { given result ≡ name_of (labels apex.now) (piece_of piece.entry) }
{
    match piece {
        Piece::Word(word) => Name::read_below(apex, word),
        Piece::Text(_) => Err(Fault::BadName),
    }
}

fn digit(b: u8) -> Option<u8>
    ensures { result ≡ digit_of b }
{
    match b {
        b'0'..=b'9' => Some(b - b'0'),
        b'a'..=b'f' => Some(b - b'a' + 10),
        b'A'..=b'F' => Some(b - b'A' + 10),
        _ => None,
    }
}

fn byte(high: u8, low: u8) -> Option<u8>
    ensures { option_map (λ b. b ∷ []) result ≡ byte_of (digit_of high) (digit_of low) (Some []) }
{
    Some(digit(high)? * 16 + digit(low)?)
}

// The bytes of a word in hexadecimal, two digits each.
fn bytes(heap: Global, word: &[u8]) -> Result<Vec<u8>, Fault>
    ensures { Reads vec_items (ok_or (bytes_in word.now) BadData) result }
{
    let mut bytes = Vec::with_capacity(heap, word.len() / 2)?;
    let mut rest = word;
    while let [high, low, after @ ..] = rest {
        let Some(byte) = byte(*high, *low) else {
            return Err(Fault::BadData);
        };
        bytes.push(byte)?;
        rest = after;
    }
    if !rest.is_empty() {
        return Err(Fault::BadData);
    }
    Ok(bytes)
}

fn address(piece: Piece) -> Option<Address>
    ensures { option_map bytes_of result ≡ address_of (piece_of piece.entry) }
{
    let Piece::Word(word) = piece else {
        return None;
    };
    if word.len() != 16 {
        return None;
    }
    let mut bytes = [0; 8];
    for (i, slot) in bytes.iter_mut().enumerate() {
        *slot = byte(word[2 * i], word[2 * i + 1])?;
    }
    Some(Address(bytes))
}

fn text(heap: Global, piece: Piece) -> Result<Vec<u8>, Fault>
    ensures { Reads vec_items (ok_or (text_of (piece_of piece.entry)) BadData) result }
{
    match piece {
        Piece::Word(_) => Err(Fault::BadData),
        Piece::Text(text) => Ok(Vec::from_slice(heap, text)?),
    }
}

// A text without bytes is a piece without bytes.
fn other(heap: Global, piece: Piece) -> Result<Vec<u8>, Fault>
    ensures { Reads vec_items (ok_or (other_of (piece_of piece.entry)) BadData) result }
{
    match piece {
        Piece::Word(word) => bytes(heap, word),
        Piece::Text([]) => Ok(Vec::new(heap)),
        Piece::Text(_) => Err(Fault::BadData),
    }
}

fn addresses(heap: Global, pieces: &[Piece]) -> Result<Vec<Address>, Fault>
    ensures { Reads (λ v. map bytes_of (vec_items v)) (ok_or (all_of address_of (map piece_of pieces.now)) BadData) result }
{
    let mut addresses = Vec::with_capacity(heap, pieces.len())?;
    for piece in pieces {
        let Some(address) = address(*piece) else {
            return Err(Fault::BadData);
        };
        addresses.push(address)?;
    }
    Ok(addresses)
}

fn texts(heap: Global, pieces: &[Piece]) -> Result<Vec<Vec<u8>>, Fault>
    ensures { Reads (λ v. map vec_items (vec_items v)) (ok_or (all_of text_of (map piece_of pieces.now)) BadData) result }
{
    let mut texts = Vec::with_capacity(heap, pieces.len())?;
    for piece in pieces {
        texts.push(text(heap, *piece)?)?;
    }
    Ok(texts)
}

fn others(heap: Global, pieces: &[Piece]) -> Result<Vec<Vec<u8>>, Fault>
    ensures { Reads (λ v. map vec_items (vec_items v)) (ok_or (all_of other_of (map piece_of pieces.now)) BadData) result }
{
    let mut others = Vec::with_capacity(heap, pieces.len())?;
    for piece in pieces {
        others.push(other(heap, *piece)?)?;
    }
    Ok(others)
}

fn is_bad_name(apex: &Name, piece: Piece) -> bool
    ensures { result ≡ bad_name (labels apex.now) (piece_of piece.entry) }
{
    match piece {
        Piece::Word(word) => Name::read_below(apex, word).is_err(),
        Piece::Text(_) => false,
    }
}

fn has_bad_name(apex: &Name, pieces: &[Piece]) -> bool
    ensures { result ≡ some_bad_name (labels apex.now) (map piece_of pieces.now) }
{
    pieces.iter().any(|piece| is_bad_name(apex, *piece))
}

// One name; a word that is no name is told before a wrong count.
fn target(apex: &Name, pieces: &[Piece]) -> Result<Name, Fault>
    ensures { alias_to (given result) ≡ alias_of (labels apex.now) (map piece_of pieces.now) }
{
    if let [Piece::Word(word)] = pieces {
        return Name::read_below(apex, word);
    }
    if has_bad_name(apex, pieces) {
        return Err(Fault::BadName);
    }
    Err(Fault::BadData)
}

fn alias(heap: Global, apex: &Name, pieces: &[Piece]) -> Result<Data, Fault>
    ensures { Reads content_of (alias_of (labels apex.now) (map piece_of pieces.now)) result }
{
    let to = target(apex, pieces)?;
    Ok(Data::Alias(Box::new(heap, to)?))
}

// Data in the form of their kind.
fn data(heap: Global, kind: Kind, apex: &Name, pieces: &[Piece]) -> Result<Data, Fault>
    ensures { Reads content_of (data_of kind.number (labels apex.now) (map piece_of pieces.now)) result }
{
    if kind == Kind::ADDRESS {
        Ok(Data::Addresses(addresses(heap, pieces)?))
    } else if kind == Kind::TEXT {
        Ok(Data::Texts(texts(heap, pieces)?))
    } else if kind.is_delegation() {
        let servers = addresses(heap, pieces)?;
        Ok(Data::Delegation(Delegation { servers }))
    } else if kind.is_alias() {
        alias(heap, apex, pieces)
    } else {
        Ok(Data::Others(others(heap, pieces)?))
    }
}

// The fields of a set's line: its name, kind and time, and its data. A wrong time is told before a bad name or kind, and these
// before wrong data.
pub fn record_set(heap: Global, apex: &Name, fields: &[Piece]) -> Result<RecordSet, Fault>
    ensures { Reads set_of_records (set_in (labels apex.now) (Some (map piece_of fields.now))) result }
{
    let [owner, number, time, pieces @ ..] = fields else {
        return Err(Fault::Malformed);
    };
    let Some(ttl) = seconds(*time) else {
        return Err(Fault::Malformed);
    };
    let Piece::Word(owner) = *owner else {
        return Err(Fault::BadName);
    };
    let owner = Name::read_below(apex, owner)?;
    let Some(kind) = kind(*number) else {
        return Err(Fault::BadName);
    };
    let data = data(heap, kind, apex, pieces)?;
    RecordSet::new(owner, kind, ttl, data)
}
