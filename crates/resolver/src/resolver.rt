// A resolver: what it remembers, which of its queries are pending, and which questions are under way.
ghost use Rattle.std.specs.Prelude.{◌≤◌, length, vec_len};

use bounded::Bounded;
use cache::{Cache, Moment};
use questions::{PendingTable, Question};
use records::Address;

pub mod ask;
pub mod count;
pub mod draw;
pub mod hear;
pub mod parts;
pub mod standing;
pub mod tick;

// The most walks under way.
pub const MAX_WALKS: usize = 16;

// The most servers of the root, as of any zone: tries count for no more than twice so many.
pub const MAX_ROOTS: usize = 16;

#[derive(Drop)]
pub struct Resolver {
    moment: Moment,
    // No call changes them, and each says so: a clause on the state says nothing of what isn't in it.
    roots: Vec<Address>,
    pending: PendingTable,
    cache: Cache,
    walks: Bounded<Question, MAX_WALKS>,
    ghost few: { vec_len roots ≤ 16 },
    // The type of the walks holds to it; here a caller's proof can read it of any resolver.
    ghost seats: { length walks ≤ 16 },
}
