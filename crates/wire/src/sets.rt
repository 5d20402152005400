// The record sets of a transfer's part.
ghost use Rattle.std.specs.Prelude.{◌≡◌, ℕ, List};
ghost use Rattle.names.specs.Names.{given, name_of};
ghost use Rattle.names.specs.Wire.{wire};
ghost use Rattle.records.specs.Contents.{content_of};
ghost use Rattle.records.specs.Sets.{set_of, set_given};
ghost use Rattle.wire.specs.Fields.{unread};
ghost use Rattle.wire.specs.Given.{Reads, shaped};
ghost use Rattle.wire.specs.Parts.{alias_of, content_in, set_in, lower, with_set, all_sets};
ghost use Rattle.wire.specs.Shapes.{sets_in};
ghost use Rattle.wire.specs.Sets.{sets_of, sets_given, TakesSet};

use crate::fields::{Fields, cut_piece};
use crate::pieces::{addresses, pieces};
use names::{Fault, Name};
use records::{Data, Delegation, Kind, RecordSet, Ttl};
use std::alloc::Global;

// One name, as it is written; a piece that is none is told before a wrong count.
fn alias(list: &[u8]) -> Result<Name, Fault>
    ensures { (ps : List (List ℕ)) → list.now ≡ wire ps → given result ≡ alias_of ps }
{
    let [count, rest @ ..] = list else {
        return Err(Fault::BadData);
    };
    let mut name = Name::root();
    let mut rest = rest;
    while let Some((piece, after)) = cut_piece(rest) {
        name = Name::read(piece)?;
        rest = after;
    }
    if *count == 1 {
        Ok(name)
    } else {
        Err(Fault::BadData)
    }
}

// Data in the form of their kind.
fn data(heap: Global, kind: Kind, list: &[u8]) -> Result<Data, Fault>
    ensures { (ps : List (List ℕ)) → list.now ≡ wire ps → Reads content_of (content_in kind.number ps) result }
{
    if kind == Kind::ADDRESS {
        Ok(Data::Addresses(addresses(heap, list)?))
    } else if kind == Kind::TEXT {
        Ok(Data::Texts(pieces(heap, list)?))
    } else if kind.is_delegation() {
        let servers = addresses(heap, list)?;
        Ok(Data::Delegation(Delegation { servers }))
    } else if kind.is_alias() {
        Ok(Data::Alias(Box::new(heap, alias(list)?)?))
    } else {
        Ok(Data::Others(pieces(heap, list)?))
    }
}

// A set by its name, if that is one, its kind and time, and the list of its pieces.
fn judged(
    heap: Global,
    name: Result<Name, Fault>,
    kind: u8,
    ttl: u32,
    list: &[u8],
) -> Result<RecordSet, Fault>
    ensures { (ls ps : List (List ℕ)) → given name ≡ name_of ls → list.now ≡ wire ps → Reads set_of (set_in (record { name = ls; kind = kind; ttl = ttl; pieces = ps })) result }
{
    let name = name?;
    let kind = Kind::try_from(kind)?;
    let data = data(heap, kind, list)?;
    RecordSet::new(name, kind, Ttl(ttl), data)
}

// What is cut short is told before what is no set.
fn set(heap: Global, fields: &mut Fields) -> Option<Result<RecordSet, Fault>>
    ensures { TakesSet (unread fields.old) result (unread fields.new) }
{
    let Some(name) = fields.name() else {
        return None;
    };
    let Some(kind) = fields.byte() else {
        return None;
    };
    let Some(ttl) = fields.number_4() else {
        return None;
    };
    let Some(list) = fields.list() else {
        return None;
    };
    Some(judged(heap, name, kind, ttl, list))
}

// That memory ended goes before all.
fn lower(a: Fault, b: Fault) -> Fault
    ensures { result ≡ lower a b }
{
    let Some(first) = a.number() else {
        return a;
    };
    let Some(second) = b.number() else {
        return b;
    };
    if first <= second { a } else { b }
}

fn with_set(
    sets: Result<Vec<RecordSet>, Fault>,
    set: Result<RecordSet, Fault>,
) -> Result<Vec<RecordSet>, Fault>
    ensures { Reads sets_of (with_set (sets_given sets) (set_given set)) result }
{
    match sets {
        Ok(mut sets) => {
            sets.push(set?)?;
            Ok(sets)
        }
        Err(fault) => match set {
            Ok(_) => Err(fault),
            Err(other) => Err(lower(fault, other)),
        },
    }
}

// The sets until the packet ends, or the lowest fault of all: what comes behind a bad one may be cut short.
pub fn sets(heap: Global, fields: &mut Fields) -> Result<Vec<RecordSet>, Fault>
    ensures { Reads sets_of (shaped all_sets (sets_in (unread fields.old))) result }
{
    let mut sets = Ok(Vec::new(heap));
    while !fields.is_empty() {
        let Some(set) = set(heap, fields) else {
            return Err(Fault::Malformed);
        };
        sets = with_set(sets, set);
    }
    sets
}
