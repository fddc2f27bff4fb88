//! A count of look-ups.

ghost use Rattle.std.specs.Prelude.{◌≡◌};
ghost use Rattle.rhd_hash.specs.Steps.{raised};

use std::marker::Model;

/// How many look-ups in modules were made. It stays at `u64::MAX`. Contracts see the number.
#[derive(Drop, Debug)]
pub struct Steps {
    count: u64,
}

impl Model for Steps {
    ghost use Rattle.std.specs.Prelude.{ℕ};

    ghost Value = { ℕ };

    ghost view = { λ s. s.count };
}

impl Steps {
    /// None yet.
    pub fn new() -> Steps
        ensures { result ≡ 0 }
    {
        Steps { count: 0 }
    }

    pub fn count(&self) -> u64
        ensures { result ≡ self.now }
    {
        self.count
    }

    /// One more.
    #[tactic(auto, unfolding(crate::specs::Steps::raised))]
    pub fn raise(&mut self)
        ensures { self.new ≡ raised self.old 1 }
    {
        self.count = self.count.saturating_add(1);
    }
}
