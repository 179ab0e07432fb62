//! Counters that only contracts read. They take no octet of a value, and their methods do nothing at run time.
ghost use Rattle.std.specs.{Prelude.◌≡◌, Prelude.ℕ, Prelude.◌+◌, Borrow.ftrue};

use std::marker::{Model, PhantomData};

/// A natural number for contracts only: no code computes with it.
#[derive(Drop)]
pub struct Count {
    marker: PhantomData<u8>,
    pub ghost n: { ℕ },
}

impl Model for Count {
    ghost also_owns = { λ _. ftrue };
}

impl Count {
    /// Starts at 0.
    pub fn new() -> Count
        ensures { result.n ≡ 0 }
    {
        Count {
            marker: PhantomData,
        }
    }

    /// Counts one more.
    #[inline]
    pub fn tick(&mut self)
        ensures { self.new.n ≡ self.old.n + 1 }
    {}

    /// Counts so many more.
    #[inline]
    pub fn add(&mut self, n: usize)
        ensures { self.new.n ≡ self.old.n + n }
    {
        for i in 0..n {
            self.tick();
        }
    }
}
