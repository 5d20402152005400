// The fields of a packet, taken off its front one by one.
ghost use Rattle.std.specs.Prelude.{◌≡◌, ℕ, List, [], take, length, Ok, nat_eq, MatchOption};
ghost use Rattle.std.specs.Option.{option_map, IfSome};
ghost use Rattle.std.specs.Int.{w16, w32, w64};
ghost use Rattle.wire.specs.Cuts.{cut_byte, cut_number, cut_list, cut_list_if, cut_what};
ghost use Rattle.wire.specs.Fields.{unread, Takes, TakesNumber, IsList, IsName, TakesWhat};
ghost use Rattle.names.specs.Names.{labels, given, name_of};
ghost use Rattle.names.specs.Wire.{wire, cut_label};

use crate::what::What;
use names::{Fault, Name, Reader};

// What is cut short stays as it is.
#[derive(Drop)]
pub struct Fields<'a> {
    rest: &'a [u8],
}

// The piece at the front behind its length, and what follows it.
pub fn cut_piece(bytes: &[u8]) -> Option<(&[u8], &[u8])>
    ensures { option_map (λ p. (p.0.now, p.1.now)) result ≡ cut_label bytes.now }
{
    let (len, rest) = bytes.split_first()?;
    let len = *len as usize;
    rest.split_at_checked(len)
}

// The name of a list's labels.
#[inline(always)]
pub fn name_in(list: &[u8]) -> Result<Name, Fault>
    ensures { (ls : List (List ℕ)) → list.now ≡ wire ls → given result ≡ name_of ls }
{
    Reader::new(list).name()
}

// How many labels a list has, if they are the first of those of another name.
#[inline(always)]
pub fn front_count(list: &[u8], lower_list: &[u8], lower: &Name) -> Option<usize>
    ensures { (ls : List (List ℕ)) → list.now ≡ wire ls → lower_list.now ≡ wire (labels lower.now) → IfSome result (λ n. Ok (take n (labels lower.now)) ≡ name_of ls) }
{
    let ([count, front @ ..], [_, all @ ..]) = (list, lower_list) else {
        return None;
    };
    let count = *count as usize;
    if count <= lower.label_count() && all.starts_with(front) {
        Some(count)
    } else {
        None
    }
}

impl<'a> Fields<'a> {
    pub fn new(bytes: &'a [u8]) -> Fields<'a>
        ensures { unread result ≡ bytes.now }
    {
        Fields { rest: bytes }
    }

    pub fn is_empty(&self) -> bool
        ensures { result ≡ nat_eq (length (unread self.now)) 0 }
    {
        self.rest.is_empty()
    }

    pub fn byte(&mut self) -> Option<u8>
        ensures { TakesNumber (cut_byte (unread self.old)) (unread self.old) result (unread self.new) }
    {
        let [byte, rest @ ..] = self.rest else {
            return None;
        };
        let byte = *byte;
        self.rest = rest;
        Some(byte)
    }

    #[tactic(auto, using(crate::proofs::Cutting::no_number, crate::proofs::Cutting::one_number))]
    pub fn number_2(&mut self) -> Option<u16>
        ensures { TakesNumber (cut_number w16 (unread self.old)) (unread self.old) result (unread self.new) }
    {
        let Some((bytes, rest)) = self.rest.split_first_chunk::<2>() else {
            return None;
        };
        self.rest = rest;
        Some(u16::from_be_bytes(*bytes))
    }

    #[tactic(auto, using(crate::proofs::Cutting::no_number, crate::proofs::Cutting::one_number))]
    pub fn number_4(&mut self) -> Option<u32>
        ensures { TakesNumber (cut_number w32 (unread self.old)) (unread self.old) result (unread self.new) }
    {
        let Some((bytes, rest)) = self.rest.split_first_chunk::<4>() else {
            return None;
        };
        self.rest = rest;
        Some(u32::from_be_bytes(*bytes))
    }

    #[tactic(auto, using(crate::proofs::Cutting::no_number, crate::proofs::Cutting::one_number))]
    pub fn number_8(&mut self) -> Option<u64>
        ensures { TakesNumber (cut_number w64 (unread self.old)) (unread self.old) result (unread self.new) }
    {
        let Some((bytes, rest)) = self.rest.split_first_chunk::<8>() else {
            return None;
        };
        self.rest = rest;
        Some(u64::from_be_bytes(*bytes))
    }

    // A list, with the number of its pieces: its lengths are walked, and what its pieces hold is not judged yet.
    pub fn list(&mut self) -> Option<&'a [u8]>
        ensures { Takes IsList (cut_list (unread self.old)) (unread self.old) result (unread self.new) }
    {
        let [count, pieces @ ..] = self.rest else {
            return None;
        };
        let mut rest = pieces;
        for _ in 0..*count {
            let Some((_, after)) = cut_piece(rest) else {
                return None;
            };
            rest = after;
        }
        let (list, rest) = self.rest.split_at(self.rest.len() - rest.len());
        self.rest = rest;
        Some(list)
    }

    // What is cut short is told before what is no name, so a bad name is no end yet.
    pub fn name(&mut self) -> Option<Result<Name, Fault>>
        ensures { Takes IsName (cut_list (unread self.old)) (unread self.old) result (unread self.new) }
    {
        let Some(list) = self.list() else {
            return None;
        };
        Some(name_in(list))
    }

    // A name, or nothing at all, which the root stands for.
    pub fn name_if(&mut self, there: bool) -> Option<Result<Name, Fault>>
        ensures { Takes IsName (cut_list_if there (unread self.old)) (unread self.old) result (unread self.new) }
    {
        if there {
            self.name()
        } else {
            Some(Ok(Name::root()))
        }
    }

    pub fn what(&mut self) -> Option<What>
        ensures { TakesWhat (cut_what (unread self.old)) (unread self.old) result (unread self.new) }
    {
        let [number, rest @ ..] = self.rest else {
            return None;
        };
        let Some(what) = What::from_number(*number) else {
            return None;
        };
        self.rest = rest;
        Some(what)
    }
}
