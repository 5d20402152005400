// The places of the words by which a walk went, in their order.
ghost use Rattle.std.specs.Prelude.{◌≤◌};

pub mod places;

// The most words on the way.
pub const MAX_STEPS: usize = 24;

#[derive(Clone, Copy)]
pub struct Trace {
    // With a count beside it: an `ArrayVec` is not `Copy`, as traces and courses are for their callers.
    places: [usize; MAX_STEPS],
    count: usize,
    ghost bounded: { count ≤ 24 },
}
