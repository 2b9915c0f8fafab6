// The two kinds of counter, each with its own wrapping sum, and what is done with a counter and its carry of either kind.
ghost use Rattle.std.specs.Prelude.{◌≡◌, ℕ, Bool};
ghost use Rattle.control.specs.Counter.{ten, six, add10, add6, fits10, fits6, both, added, set_if, stepped, both_fit};

use crate::{Counter6, Counter10, Tracked};

// A counter of so many bits.
pub trait Counter: Copy {
    ghost of: { ℕ → Self };

    ghost plus: { Self → Self → Self };

    ghost in_range: { Self → Bool };

    fn of(n: u32) -> Self
        ensures { result ≡ of n };

    fn plus(self, step: Self) -> Self
        ensures { result ≡ plus self step };

    fn in_range(self) -> bool
        ensures { result ≡ in_range self };
}

impl Counter for Counter10 {
    ghost of = { ten };

    ghost plus = { add10 };

    ghost in_range = { fits10 };

    fn of(n: u32) -> Counter10 {
        Counter10((n % 1024) as u16)
    }

    fn plus(self, step: Counter10) -> Counter10 {
        Counter10((self.0 % 1024 + step.0 % 1024) % 1024)
    }

    fn in_range(self) -> bool {
        self.0 < 1024
    }
}

impl Counter for Counter6 {
    ghost of = { six };

    ghost plus = { add6 };

    ghost in_range = { fits6 };

    fn of(n: u32) -> Counter6 {
        Counter6((n % 64) as u8)
    }

    fn plus(self, step: Counter6) -> Counter6 {
        Counter6((self.0 % 64 + step.0 % 64) % 64)
    }

    fn in_range(self) -> bool {
        self.0 < 64
    }
}

impl<C: Counter> Tracked<C> {
    // The counter and the carry at one number.
    fn both(n: C) -> Tracked<C>
        ensures { result ≡ both n }
    {
        Tracked { at: n, carry: n }
    }

    pub(crate) fn zero() -> Tracked<C>
        ensures { result ≡ both (C.of 0) }
    {
        Tracked::both(C::of(0))
    }

    pub(crate) fn in_range(self) -> bool
        ensures { result ≡ both_fit C.in_range self }
    {
        self.at.in_range() & self.carry.in_range()
    }

    pub(crate) fn set_if(self, on: bool, v: u32) -> Tracked<C>
        ensures { result ≡ set_if (C.of v) on self }
    {
        if on {
            return Tracked::both(C::of(v));
        }
        self
    }

    // The counter alone gains the step.
    pub(crate) fn added(self, step: C) -> Tracked<C>
        ensures { result ≡ added C.plus self step }
    {
        Tracked {
            at: self.at.plus(step),
            ..self
        }
    }

    // By an address slot: cleared; else the counter gains the step and the carry becomes it; else the carry gains the step and the counter becomes it; else
    // the counter alone gains it.
    pub(crate) fn stepped(self, step: C, clear: bool, copy: bool, carry: bool) -> Tracked<C>
        ensures { result ≡ stepped C.plus (C.of 0) self step clear copy carry }
    {
        if clear {
            return Tracked::zero();
        }
        if copy {
            return Tracked::both(self.at.plus(step));
        }
        if carry {
            return Tracked::both(self.carry.plus(step));
        }
        self.added(step)
    }
}
