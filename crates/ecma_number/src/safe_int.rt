//! Whole numbers that a double holds exactly, and none beside them.
ghost use Rattle.std.specs.Prelude.{◌≡◌, neg_ℤ};
ghost use Rattle.std.specs.Option.{SomeIff};
ghost use Rattle.ecma_number.specs.SafeInt.{IsSafe};

use std::marker::Model;

/// A whole number from -(2^53 - 1) to 2^53 - 1: ECMAScript's safe integers (21.1.2.5
/// Number.isSafeInteger). A contract sees it as the number.
#[derive(Debug, Clone, Copy, PartialEq, Eq)]
pub struct SafeInt(i64);

impl Model for SafeInt {
    ghost use Rattle.std.specs.Prelude.{ℤ};
    ghost use Rattle.ecma_number.specs.SafeInt.{IsSafe};

    ghost Value = { ℤ };

    ghost view = { λ s. s.0 };

    ghost invariant = { λ s. IsSafe s.0 };

    ghost inverse = { λ number. record { 0 = number } };
}

impl SafeInt {
    /// The largest, 2^53 - 1 (ECMAScript, 21.1.2.6 Number.MAX_SAFE_INTEGER).
    pub const MAX: i64 = 9007199254740991;

    pub(crate) const ZERO: SafeInt = SafeInt(0);

    pub(crate) const ONE: SafeInt = SafeInt(1);

    /// The number, or `None` exactly where it lies above 2^53 - 1 or below -(2^53 - 1).
    pub fn new(number: i64) -> Option<SafeInt>
        ensures { SomeIff result (IsSafe number) number }
    {
        if -Self::MAX <= number && number <= Self::MAX {
            Some(SafeInt(number))
        } else {
            None
        }
    }

    /// The number.
    pub fn get(self) -> i64
        ensures value { result ≡ self }
        ensures range { IsSafe result }
    {
        self.0
    }

    pub(crate) fn negated(self) -> SafeInt
        ensures { result ≡ neg_ℤ self }
    {
        SafeInt(-self.0)
    }
}

impl From<i32> for SafeInt {
    ghost from_gives = { λ number safe. safe ≡ number };

    fn from(number: i32) -> SafeInt {
        SafeInt(i64::from(number))
    }
}

impl From<u32> for SafeInt {
    ghost use Rattle.std.specs.Prelude.{pos};

    ghost from_gives = { λ number safe. safe ≡ pos number };

    fn from(number: u32) -> SafeInt {
        SafeInt(i64::from(number))
    }
}
