//! Whether a name is fully qualified, in a machine token of its own.

ghost use Rattle.std.specs.Prelude.{◌≡◌, Bool, ◌==◌};

use std::marker::Model;

/// A `bool` that fills a machine token.
///
/// After a `bool` of one octet a name would have seven octets of padding. A move copies them with it in two parts that
/// overlap, and a load of both parts waits until both are stored: half of the time of a short record.
#[derive(Drop)]
pub struct FqdnFlag {
    token: u64,
}

impl Model for FqdnFlag {
    ghost Value = { Bool };

    ghost view = { λ m. m.token == 1 };
}

impl FqdnFlag {
    #[inline]
    pub fn new(mark: bool) -> FqdnFlag
        ensures { result ≡ mark }
    {
        FqdnFlag {
            token: if mark { 1 } else { 0 },
        }
    }

    #[inline]
    pub fn get(&self) -> bool
        ensures { result ≡ self.now }
    {
        self.token == 1
    }
}
