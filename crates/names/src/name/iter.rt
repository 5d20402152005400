// The labels of a name, one by one: from the root down, or from the other end.
ghost use Rattle.std.specs.Prelude.{◌≤◌};

use super::Name;
use std::ops::Range;

pub mod hand;

#[derive(Drop)]
pub struct Labels<'a> {
    name: &'a Name,
    // The depths of those that are left.
    depths: Range<usize>,
    ghost there: { depths.end ≤ name.now.count },
}
