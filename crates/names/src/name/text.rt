// The written form of a name, from the lowest label up: `rescue.upperton`, and `.` for the root.
ghost use Rattle.std.specs.Prelude.{◌≡◌, [], ◌++◌};
ghost use Rattle.names.specs.Names.{labels, name_of, given};
ghost use Rattle.names.specs.Reading.{labels_in, read_name, read_below, WrittenLaws};

use super::Name;
use crate::Fault;

impl Name {
    // The name whose labels below this one's are those of the text.
    fn extended(&self, text: &[u8]) -> Result<Name, Fault>
        ensures { given result ≡ name_of (labels self.now ++ labels_in text.now) }
    {
        let mut name = *self;
        for label in text.rsplit(|b| *b == b'.') {
            name.push(label)?;
        }
        Ok(name)
    }

    // Reads a name in the form in which it is written: no last dot but the root's.
    pub fn read(text: &[u8]) -> Result<Name, Fault>
        ensures { given result ≡ read_name text.now }
    {
        if text == b".".as_slice() {
            Ok(Name::root())
        } else {
            Name::root().extended(text)
        }
    }

    // Reads a name as an owner writes it: with a last dot it is whole, without one it stands below the apex.
    pub fn read_below(apex: &Name, text: &[u8]) -> Result<Name, Fault>
        ensures { given result ≡ read_below (labels apex.now) text.now }
    {
        if text == b".".as_slice() {
            return Ok(Name::root());
        }
        match text.strip_suffix(b".") {
            Some(whole) => Name::root().extended(whole),
            None => apex.extended(text),
        }
    }

    // Reads a whole name; a last dot may be left out.
    pub fn read_whole(text: &[u8]) -> Result<Name, Fault>
        ensures { given result ≡ read_below [] text.now }
    {
        Name::read_below(&Name::root(), text)
    }
}

pub fn written_laws()
    ensures { WrittenLaws }
{}
