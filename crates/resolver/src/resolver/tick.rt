// A second passes: queries run out, and count for those that came to wait for them later.
ghost use Rattle.std.specs.Prelude.{◌≡◌, ◌+◌, not, List, ◌∷◌, if◌then◌else◌, is_some, IfSome, nat_lt};
ghost use Rattle.protocol.specs.Lists.{kept};
ghost use Rattle.protocol.specs.World.{Event, Tick};
ghost use Rattle.cache.specs.Entries.{rules};
ghost use Rattle.machine.specs.Machine.{is_open, count_all, with_walks, tick};
ghost use Rattle.resolver.specs.Resolvers.{roots_of, rules_for, state_of};
ghost use Rattle.resolver.specs.Runs.{Runs};

use super::Resolver;
use super::count::count_each;
use cache::Moment;

impl Resolver {
    fn count_expired(&mut self, next: Moment)
        ensures state { state_of self.new ≡ with_walks (count_all (rules_for self.old) (state_of self.old) (kept (λ x. not (is_open rules next.0 x)) (state_of self.old).pending) (state_of self.old).walks) (state_of self.old) }
        ensures roots { roots_of self.new ≡ roots_of self.old }
    {
        let walks = self.walks.as_mut_slice();
        for pending in self.pending.as_slice() {
            if !pending.is_open(next) {
                count_each(&self.cache, self.moment, walks, pending);
            }
        }
    }

    // The moment to which the clock went on: at the last one that 64 bits hold there is no further tick.
    pub fn tick(&mut self) -> Option<Moment>
        ensures told { is_some result ≡ nat_lt (state_of self.old).now 18446744073709551615 }
        ensures moment { IfSome result (λ m. m.0 ≡ (state_of self.new).now) }
        ensures state { state_of self.new ≡ (if is_some result then tick (rules_for self.old) (state_of self.old) else state_of self.old) }
        ensures roots { roots_of self.new ≡ roots_of self.old }
        ensures runs { (es : List Event) → Runs self.old es → Runs self.new (if is_some result then Tick ∷ es else es) }
    {
        let next = Moment(self.moment.0.checked_add(1)?);
        self.count_expired(next);
        self.pending.expire(next);
        self.moment = next;
        Some(next)
    }
}
