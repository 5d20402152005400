// The resolver: questions are walked by what is remembered, and what is lacking is asked for.
#![tactic(auto)]

ghost use Rattle.resolver.specs.Runs.{RunsRefine, RunsBounded};

mod answer;
mod resolver;
mod response;

pub use answer::{Answer, Outcome, Shown};
pub use resolver::hear::Heard;
pub use resolver::{MAX_ROOTS, MAX_WALKS, Resolver};
pub use response::Response;

// Any sequence of calls of a resolver, where ids were never drawn before and what is heard was said, is the resolver's part of
// a run of the world: so what it shows is fresh, and what is meant where owners rest.
pub fn runs_refine()
    ensures { RunsRefine }
{}

// For one question at most 768 queries are sent: two to each of 16 servers for each of 24 words. It is shown something within
// 8,454 seconds, if before each second what is done is shown and ids are drawn until none is used.
pub fn runs_bounded()
    ensures { RunsBounded }
{}
