// The one clock of the valley, in seconds.
ghost use Rattle.std.specs.Prelude.{◌≡◌};
ghost use Rattle.std.specs.Option.{unwrap_or};
ghost use Rattle.valley.specs.Clocks.{next_moment};

#[derive(Drop)]
pub struct Clock {
    moment: u64,
}

impl Clock {
    pub fn new() -> Clock
        ensures { result.moment ≡ 0 }
    {
        Clock { moment: 0 }
    }

    pub fn now(&self) -> u64
        ensures { result ≡ self.now.moment }
    {
        self.moment
    }

    // A second on. A clock that stood still would let nothing run out, so the last moment that 64 bits hold has no next one.
    pub fn tick(&mut self) -> Option<u64>
        ensures value { result ≡ next_moment self.old.moment }
        ensures after { self.new.moment ≡ unwrap_or result self.old.moment }
    {
        let next = self.moment.checked_add(1)?;
        self.moment = next;
        Some(next)
    }
}
