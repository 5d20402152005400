// The wire form of a name: the number of its labels, then each label behind its length, from the root down.
ghost use Rattle.std.specs.Prelude.{◌≡◌, ◌<◌, ◌≤◌, ◌&&◌, [], ◌∷◌, ◌++◌, length, if◌then◌else◌, MatchResult};
ghost use Rattle.std.specs.Option.{option_map};
ghost use Rattle.names.specs.declared.fault.Fault.TheVariants.{NoMemory};
ghost use Rattle.names.specs.Labels.{proper};
ghost use Rattle.names.specs.Names.{labels, given, made, one_more};
ghost use Rattle.names.specs.Readers.{unread};
ghost use Rattle.names.specs.Wire.{wire, cut_label, Appends, read_wire, name_read, rest_read, WireLaws};

use super::Name;
use crate::Fault;
use std::alloc::AllocError;

// The label at the front, and what follows it.
fn cut_label(bytes: &[u8]) -> Option<(&[u8], &[u8])>
    ensures { option_map (λ p. (p.0.now, p.1.now)) result ≡ cut_label bytes.now }
{
    let (len, rest) = bytes.split_first()?;
    let len = *len as usize;
    rest.split_at_checked(len)
}

// One label more, unless one before it was bad; whether one is bad now. A refused label leaves the name.
fn push_label(name: &mut Name, is_bad: bool, label: &[u8]) -> bool
    ensures value { made result (labels name.new) ≡ one_more (made is_bad (labels name.old)) label.now }
    ensures kept { labels name.new ≡ (if result then labels name.old else labels name.old ++ label.now ∷ []) }
{
    is_bad || name.push(label).is_err()
}

// Reads from the front of a packet; what is refused stays there to be read.
#[derive(Drop)]
pub struct Reader<'a> {
    rest: &'a [u8],
}

impl<'a> Reader<'a> {
    pub fn new(bytes: &'a [u8]) -> Reader<'a>
        ensures { unread result ≡ bytes.now }
    {
        Reader { rest: bytes }
    }

    // What is still to be read.
    pub fn rest(&self) -> &'a [u8]
        ensures { result.now ≡ unread self.now }
    {
        self.rest
    }

    pub fn name(&mut self) -> Result<Name, Fault>
        ensures value { given result ≡ name_read (read_wire (unread self.old)) }
        ensures rest { unread self.new ≡ rest_read (read_wire (unread self.old)) (unread self.old) }
    {
        // Here and below a reader's answer is taken apart by `let .. else`, as the project wants it.
        let [count, bytes @ ..] = self.rest else {
            return Err(Fault::Malformed);
        };
        let mut rest = bytes;
        let mut name = Name::root();
        // What is cut short is told before what is no name, so a bad label is no end yet.
        let mut is_bad = false;
        for _ in 0..*count {
            let Some((label, after)) = cut_label(rest) else {
                return Err(Fault::Malformed);
            };
            is_bad = push_label(&mut name, is_bad, label);
            rest = after;
        }
        if is_bad {
            return Err(Fault::BadName);
        }
        self.rest = rest;
        Ok(name)
    }
}

// One label behind its length.
fn append_label(label: &[u8], out: &mut Vec<u8>) -> Result<(), AllocError>
    requires { length label.now < 256 }
    ensures { Appends out.old.items (length label.now ∷ label.now) result out.new.items }
{
    out.push(label.len() as u8)?;
    out.extend_from_slice(label)
}

impl Name {
    // How many bytes the wire form has: one for each label's length and one for their number, beside the labels.
    pub fn wire_len(&self) -> usize
        ensures value { result ≡ length (wire (labels self.now)) }
        ensures bound { result ≤ 257 }
    {
        let count = self.count as usize;
        self.start(count) + count + 1
    }

    fn append_wire(&self, out: &mut Vec<u8>) -> Result<(), AllocError>
        ensures { Appends out.old.items (wire (labels self.now)) result out.new.items }
    {
        out.push(self.count)?;
        for label in self.labels() {
            append_label(label, out)?;
        }
        Ok(())
    }

    // Writes the wire form behind what is there, all of it or nothing.
    pub fn write_wire(&self, out: &mut Vec<u8>) -> Result<(), Fault>
        ensures { MatchResult result (λ _. out.new.items ≡ out.old.items ++ wire (labels self.now)) (λ f. (f ≡ NoMemory) × (out.new.items ≡ out.old.items)) }
    {
        let before = out.len();
        if self.append_wire(out).is_err() {
            out.truncate(before);
            return Err(Fault::NoMemory);
        }
        Ok(())
    }
}

pub fn wire_laws()
    ensures { WireLaws }
{}
