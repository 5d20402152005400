// What is seen of a resolver.
ghost use Rattle.std.specs.Prelude.{◌≡◌};
ghost use Rattle.cache.specs.Caches.{entries_of};
ghost use Rattle.resolver.specs.Resolvers.{state_of};

use super::Resolver;
use cache::{Cache, Moment};

impl Resolver {
    pub fn moment(&self) -> Moment
        ensures { result.0 ≡ (state_of self.now).now }
    {
        self.moment
    }

    // Answers are places in it.
    pub fn cache(&self) -> &Cache
        ensures { entries_of result.now ≡ (state_of self.now).cache }
    {
        &self.cache
    }
}
