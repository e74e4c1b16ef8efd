ghost use Rattle.std.specs.Prelude.{◌≡◌, ◌<◌, ◌≤◌, ◌^◌, ◌%◌, ℕ, IfSome, IfNone};

use std::marker::Model;

/// A number of at most WIDTH bits.
#[derive(Clone, Copy, PartialEq, Eq)]
pub struct Number<const WIDTH: u32> {
    value: u64,
}

impl<const WIDTH: u32> Model for Number<WIDTH> {
    ghost use Rattle.std.specs.Prelude.{◌<◌, ◌^◌, ℕ};

    ghost Value = { ℕ };

    ghost view = { λ number. number.value };

    ghost inverse = { λ value. record { value = value } };

    ghost invariant = { λ number. number.value < 2 ^ WIDTH };
}

impl<const WIDTH: u32> Number<WIDTH> {
    /// This value, if it fits. WIDTH is below 64.
    pub fn new(value: u64) -> Option<Number<WIDTH>>
        requires { WIDTH < 64 }
        ensures some { IfSome result (λ number. number ≡ value) }
        ensures none { IfNone result (2 ^ WIDTH ≤ value) }
    {
        if value >> WIDTH == 0 {
            Some(Number { value })
        } else {
            None
        }
    }

    /// This value, which fits.
    pub fn of(value: u64) -> Number<WIDTH>
        requires { value < 2 ^ WIDTH }
        ensures { result ≡ value }
    {
        Number { value }
    }

    /// The low WIDTH bits of a value. WIDTH is below 64.
    pub fn low(value: u64) -> Number<WIDTH>
        requires { WIDTH < 64 }
        ensures { result ≡ value % 2 ^ WIDTH }
    {
        Number {
            value: value % (1 << WIDTH),
        }
    }

    /// It as a number.
    pub fn get(self) -> u64
        ensures value { result ≡ self.entry }
        ensures fits { result < 2 ^ WIDTH }
    {
        self.value
    }
}
