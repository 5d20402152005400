// A name's labels: how many, which, and one more or one less.
ghost use Rattle.std.specs.Prelude.{◌≡◌, ◌<◌, ◌≤◌, [], ◌∷◌, ◌++◌, length, take, slice_index_or};
ghost use Rattle.std.specs.List.{slice_get};
ghost use Rattle.std.specs.Option.{option_map};
ghost use Rattle.names.specs.Labels.{label_byte, label_bytes, proper_label};
ghost use Rattle.names.specs.Layout.{start_at};
ghost use Rattle.names.specs.Names.{labels, name_of, given, Does, parent_of};

use super::{MAX_LABEL, MAX_LABELS, MAX_WRITTEN, Name};
use crate::Fault;

fn is_label_byte(b: u8) -> bool
    ensures { result ≡ label_byte b }
{
    matches!(b, b'a'..=b'z' | b'0'..=b'9' | b'-')
}

fn are_label_bytes(bytes: &[u8]) -> bool
    ensures { result ≡ label_bytes bytes.now }
{
    bytes.iter().all(|b| is_label_byte(*b))
}

fn is_label(label: &[u8]) -> bool
    ensures { result ≡ proper_label label.now }
{
    (1..=MAX_LABEL).contains(&label.len()) && are_label_bytes(label)
}

impl Name {
    pub fn root() -> Name
        ensures { labels result ≡ [] }
    {
        Name {
            bytes: [0; MAX_WRITTEN],
            ends: [0; MAX_LABELS],
            count: 0,
        }
    }

    pub fn label_count(&self) -> usize
        ensures { result ≡ length (labels self.now) }
    {
        self.count as usize
    }

    // Where the label at a depth begins, which is where the one above it ends.
    pub(super) fn start(&self, depth: usize) -> usize
        requires { depth ≤ self.now.count }
        ensures value { result ≡ start_at self.now.ends depth }
        ensures bound { result ≤ 255 }
    {
        if depth == 0 {
            0
        } else {
            self.ends[depth - 1] as usize
        }
    }

    // The label at a depth that is there.
    pub(super) fn label_at(&self, depth: usize) -> &[u8]
        requires { depth < length (labels self.now) }
        ensures { result.now ≡ slice_index_or (labels self.now) depth [] }
    {
        &self.bytes[self.start(depth)..self.start(depth + 1)]
    }

    // The label at a depth, counted from the root down.
    pub fn label(&self, depth: usize) -> Option<&[u8]>
        ensures { option_map (λ x. x.now) result ≡ slice_get (labels self.now) depth }
    {
        (depth < self.label_count()).then(|| self.label_at(depth))
    }

    // One label more, below all others; a refusal leaves the name as it was.
    pub fn push(&mut self, label: &[u8]) -> Result<(), Fault>
        ensures { Does (name_of (labels self.old ++ label.now ∷ [])) (labels self.old) result (labels self.new) }
    {
        let count = self.count as usize;
        if count >= MAX_LABELS || !is_label(label) {
            return Err(Fault::BadName);
        }
        let start = self.start(count);
        let end = start + label.len();
        // A dot before each label but the first: as many as there are labels now.
        if end + count > MAX_WRITTEN {
            return Err(Fault::BadName);
        }
        self.bytes[start..end].copy_from_slice(label);
        self.ends[count] = end as u8;
        self.count += 1;
        Ok(())
    }

    pub fn child(&self, label: &[u8]) -> Result<Name, Fault>
        ensures { given result ≡ name_of (labels self.now ++ label.now ∷ []) }
    {
        let mut name = *self;
        name.push(label)?;
        Ok(name)
    }

    // The name of the first labels, at most that many.
    pub fn ancestor(&self, count: usize) -> Name
        ensures { labels result ≡ take count (labels self.now) }
    {
        if count >= self.label_count() {
            return *self;
        }
        Name {
            bytes: self.bytes,
            ends: self.ends,
            count: count as u8,
        }
    }

    pub fn parent(&self) -> Option<Name>
        ensures { option_map labels result ≡ parent_of (labels self.now) }
    {
        let above = self.label_count().checked_sub(1)?;
        Some(self.ancestor(above))
    }
}
