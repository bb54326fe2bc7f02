//! The values of ECMAScript's Number type that this project computes with.
ghost use Rattle.std.specs.Prelude.{◌≡◌};
ghost use Rattle.ecma_number.specs.SafeInt.{IsSafe};
ghost use Rattle.ecma_number.specs.JsNumber.{whole_of, signed_whole_of, value_of, zero_of, infinity_of, is_nan, is_infinite, is_zero, is_negative};

use crate::SafeInt;

/// A value of ECMAScript's Number type (6.1.6.1), cut to the whole numbers within 2^53 - 1 and the
/// four special values. Zero without a sign is `Whole` of 0, and zero with a minus is `NegZero`.
#[derive(Debug, Clone, Copy, PartialEq, Eq)]
pub enum JsNumber {
    Whole(SafeInt),
    NegZero,
    NaN,
    Infinity,
    NegInfinity,
}

impl JsNumber {
    /// Whether it is NaN.
    pub fn is_nan(&self) -> bool
        ensures { result ≡ is_nan self.now }
    {
        matches!(self, JsNumber::NaN)
    }

    /// Whether it is an infinity, of either sign.
    pub fn is_infinite(&self) -> bool
        ensures { result ≡ is_infinite self.now }
    {
        matches!(self, JsNumber::Infinity | JsNumber::NegInfinity)
    }

    /// Whether it is a zero, of either sign.
    pub fn is_zero(&self) -> bool
        ensures { result ≡ is_zero self.now }
    {
        match self {
            JsNumber::Whole(number) => number.get() == 0,
            JsNumber::NegZero => true,
            _ => false,
        }
    }

    pub(crate) fn is_negative(&self) -> bool
        ensures { result ≡ is_negative self.now }
    {
        match self {
            JsNumber::Whole(number) => number.get() < 0,
            JsNumber::NegZero | JsNumber::NegInfinity => true,
            _ => false,
        }
    }

    // The mathematical value, and 0 for what has none.
    pub(crate) fn value(&self) -> i64
        ensures value { result ≡ value_of self.now }
        ensures range { IsSafe result }
    {
        match self {
            JsNumber::Whole(number) => number.get(),
            _ => 0,
        }
    }

    // The Number that is exactly this whole number, or `None` outside the domain.
    pub(crate) fn whole(number: i64) -> Option<JsNumber>
        ensures { result ≡ whole_of number }
    {
        SafeInt::new(number).map(JsNumber::Whole)
    }

    // The same, where a zero gets the sign.
    pub(crate) fn signed_whole(is_negative: bool, number: i64) -> Option<JsNumber>
        ensures { result ≡ signed_whole_of is_negative number }
    {
        if number == 0 {
            Some(JsNumber::zero(is_negative))
        } else {
            JsNumber::whole(number)
        }
    }

    pub(crate) fn zero(is_negative: bool) -> JsNumber
        ensures { result ≡ zero_of is_negative }
    {
        if is_negative {
            JsNumber::NegZero
        } else {
            JsNumber::Whole(SafeInt::ZERO)
        }
    }

    pub(crate) fn infinity(is_negative: bool) -> JsNumber
        ensures { result ≡ infinity_of is_negative }
    {
        if is_negative {
            JsNumber::NegInfinity
        } else {
            JsNumber::Infinity
        }
    }
}

impl From<i32> for JsNumber {
    ghost use Rattle.ecma_number.specs.declared.js_number.JsNumber.TheVariants.{Whole};

    ghost from_gives = { λ bits number. number ≡ Whole bits };

    fn from(bits: i32) -> JsNumber {
        JsNumber::Whole(SafeInt::from(bits))
    }
}

impl From<u32> for JsNumber {
    ghost use Rattle.std.specs.Prelude.{pos};
    ghost use Rattle.ecma_number.specs.declared.js_number.JsNumber.TheVariants.{Whole};

    ghost from_gives = { λ bits number. number ≡ Whole (pos bits) };

    fn from(bits: u32) -> JsNumber {
        JsNumber::Whole(SafeInt::from(bits))
    }
}
