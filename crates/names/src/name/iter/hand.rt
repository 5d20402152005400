// Handing on the labels of a name.
ghost use Rattle.std.specs.Prelude.{◌≡◌, drop};
ghost use Rattle.std.specs.Iterator.{YieldsFirstRef, YieldsLastRef, item_count};
ghost use Rattle.names.specs.Iterating.{labels_ahead};
ghost use Rattle.names.specs.Names.{labels};

use super::Labels;
use crate::Name;

impl<'a> Iterator for Labels<'a> {
    type Item = &'a [u8];

    ghost next_gives = { YieldsFirstRef labels_ahead };

    ghost remaining = { item_count labels_ahead };

    fn next(&mut self) -> Option<&'a [u8]> {
        let depth = self.depths.next()?;
        Some(self.name.label_at(depth))
    }
}

impl<'a> DoubleEndedIterator for Labels<'a> {
    ghost next_back_gives = { YieldsLastRef labels_ahead };

    fn next_back(&mut self) -> Option<&'a [u8]> {
        let depth = self.depths.next_back()?;
        Some(self.name.label_at(depth))
    }
}

impl Name {
    pub fn labels(&self) -> Labels<'_>
        ensures { labels_ahead result ≡ labels self.now }
    {
        self.labels_below(0)
    }

    // Those behind the first so many.
    pub fn labels_below(&self, depth: usize) -> Labels<'_>
        ensures { labels_ahead result ≡ drop depth (labels self.now) }
    {
        Labels {
            name: self,
            depths: depth..self.label_count(),
        }
    }
}
