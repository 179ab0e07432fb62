//! Values from outside, before they are looked at.
ghost use Rattle.std.specs.{Prelude.◌≡◌, Prelude.true, Prelude.false, Prelude.IfOk, Prelude.IfErr, Fn.FnOnceTakesAt, Fn.FnOnceReturnsAt};

use std::marker::Model;

/// A value from outside that is still to be looked at.
#[derive(Clone, Copy, Debug, Drop)]
pub struct Restrict<T> {
    value: T,
}

impl<T> Model for Restrict<T> {
    ghost Value = { T };

    ghost view = { λ r. r.value };

    ghost inverse = { λ v. record { value = v } };
}

impl<T> Restrict<T> {
    /// Keeps the value from being used before it was looked at.
    #[inline]
    pub fn new(value: T) -> Restrict<T>
        ensures { result ≡ value }
    {
        Restrict { value }
    }

    /// The value as it is, whatever it is.
    #[inline]
    pub fn unverified(self) -> T
        ensures { result ≡ self }
    {
        let Restrict { value } = self;
        value
    }

    /// The value that `f` makes of this one, still to be looked at.
    #[inline]
    pub fn map<R, F: FnOnce(T) -> R>(self, f: F) -> Restrict<R>
        requires { F.pre f self }
        ensures { F.post f self result }
    {
        Restrict::new(f(self.unverified()))
    }

    /// Looks at the value: `Ok` exactly if `f` returns true. Both outcomes carry the value.
    #[inline]
    pub fn verify_unwrap<F: FnOnce(&T) -> bool>(self, f: F) -> Result<T, T>
        requires { FnOnceTakesAt F.FnOnce f self }
        ensures ok { IfOk result (λ v. (v ≡ self) × FnOnceReturnsAt F.FnOnce f self true) }
        ensures err { IfErr result (λ v. (v ≡ self) × FnOnceReturnsAt F.FnOnce f self false) }
    {
        let value = self.unverified();
        if f(&value) { Ok(value) } else { Err(value) }
    }
}
