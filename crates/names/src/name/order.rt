// Names compared label by label, from the root down: within, equal, before.
ghost use Rattle.std.specs.Prelude.{◌≡◌, drop, nat_eq, Some, refl};
ghost use Rattle.names.specs.Fronts.{front, front_below};
ghost use Rattle.names.specs.Names.{labels};
ghost use Rattle.names.specs.Order.{same_label, within, order, WithinLaws, OrderLaws};
ghost use Rattle.names.specs.Comparing.{names_total, names_ties, names_partial};
ghost use Rattle.std.specs.Cmp.{partial_equiv_from_equiv, on_equiv, on_po, on_total};
ghost use Rattle.std.specs.Cmp.Lexicographic.{pointwise, lists_equiv, nat_list_eq_equiv};
ghost use Rattle.std.specs.Ordering.{on};

use super::Name;
use std::cmp::Ordering;

fn same_label(a: &[u8], b: &[u8]) -> bool
    ensures { result ≡ same_label a.now b.now }
{
    a == b
}

// The first eight bytes of a label as one number.
fn front_of(label: &[u8]) -> u64
    ensures { result ≡ front label.now }
{
    let mut bytes = [0; 8];
    let len = label.len().min(bytes.len());
    bytes[..len].copy_from_slice(&label[..len]);
    u64::from_be_bytes(bytes)
}

impl Name {
    // At or below the other name.
    pub fn is_within(&self, upper: &Name) -> bool
        ensures { result ≡ within (labels upper.now) (labels self.now) }
    {
        // The counts come first, here and in `==`: of two names that differ they tell most often, and no label is read.
        if self.label_count() < upper.label_count() {
            return false;
        }
        // By depths, and not by `eq` of their iterators: with 16 labels that takes 1.6 times as long.
        for depth in 0..upper.label_count() {
            if !same_label(self.label_at(depth), upper.label_at(depth)) {
                return false;
            }
        }
        true
    }

    // The order of two names by their labels from a depth on: all that is left to compare where those above are the same.
    pub fn compare_below(&self, other: &Name, depth: usize) -> Ordering
        ensures { result ≡ order (drop depth (labels self.now)) (drop depth (labels other.now)) }
    {
        self.labels_below(depth).cmp(other.labels_below(depth))
    }

    // The first bytes of the label at a depth as one number: where two names share the labels above it and these numbers
    // differ, the numbers stand to each other as the names do.
    pub fn front_below(&self, depth: usize) -> u64
        ensures { result ≡ front_below depth (labels self.now) }
    {
        self.label(depth).map_or(0, |label| front_of(label))
    }
}

// Not derived, and the order neither: bytes past the last label count for nothing, and names are compared label by label.
impl PartialEq for Name {
    ghost eq = { on labels (pointwise (pointwise nat_eq)) };

    ghost laws = { partial_equiv_from_equiv (on_equiv labels (lists_equiv nat_list_eq_equiv)) };

    fn eq(&self, other: &Name) -> bool {
        self.label_count() == other.label_count() && self.is_within(other)
    }
}

impl Eq for Name {
    ghost laws = { on_equiv labels (lists_equiv nat_list_eq_equiv) };
}

impl PartialOrd for Name {
    ghost partial_cmp = { λ x y. Some (order (labels x) (labels y)) };

    ghost laws = { on_po labels names_partial };

    fn partial_cmp(&self, other: &Name) -> Option<Ordering> {
        Some(self.cmp(other))
    }
}

impl Ord for Name {
    ghost cmp = { on labels order };

    ghost total = { on_total labels names_total };

    ghost matches_partial_cmp = { λ x y. refl };

    ghost matches_eq = { λ x y. names_ties (labels x) (labels y) };

    fn cmp(&self, other: &Name) -> Ordering {
        self.compare_below(other, 0)
    }
}

pub fn within_laws()
    ensures { WithinLaws }
{}

pub fn order_laws()
    ensures { OrderLaws }
{}
