// The queries that are pending, in the order in which they were sent.
ghost use Rattle.std.specs.Prelude.{◌≤◌, length};

use crate::query::Pending;
use bounded::Bounded;

pub mod change;
pub mod find;

pub const MAX_PENDING: usize = 96;

#[derive(Drop)]
pub struct PendingTable {
    queries: Bounded<Pending, MAX_PENDING>,
    // The type of the queries holds to it; here a caller's proof can read it of any table.
    ghost few: { length queries ≤ 96 },
}
