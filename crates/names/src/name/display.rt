// Writing a name: from the lowest label up, with dots between.
ghost use Rattle.std.specs.Prelude.{◌≡◌, ◌≤◌, true, length, Some};
ghost use Rattle.names.specs.Labels.{proper_label, written};
ghost use Rattle.names.specs.Names.{labels};

use super::Name;
use std::fmt;

impl Name {
    // How many bytes the written form has: a dot between each two labels, or the root's.
    pub fn written_len(&self) -> usize
        ensures value { result ≡ length (written (labels self.now)) }
        ensures bound { result ≤ 255 }
    {
        let count = self.count as usize;
        if count == 0 {
            return 1;
        }
        self.start(count) + (count - 1)
    }
}

// A label as text. Safe, and proved so: every byte of a label is ASCII.
fn text_of(label: &[u8]) -> &str
    requires { proper_label label.now ≡ true }
    ensures { result.now ≡ label.now }
{
    unsafe { std::str::from_utf8_unchecked(label) }
}

impl fmt::Display for Name {
    ghost output = { λ n. Some (written (labels n)) };

    fn fmt<W: fmt::Write>(&self, f: &mut fmt::Formatter<W>) -> fmt::Result {
        let mut labels = self.labels().rev();
        let Some(lowest) = labels.next() else {
            return f.write_str(".");
        };
        f.write_str(text_of(lowest))?;
        for label in labels {
            f.write_str(".")?;
            f.write_str(text_of(label))?;
        }
        Ok(())
    }
}
