//! ECMAScript's equality of Numbers, which is not equality of values.
ghost use Rattle.std.specs.Prelude.{◌≡◌};
ghost use Rattle.ecma_number.specs.Equality.{are_equal};

use crate::JsNumber;

impl JsNumber {
    /// `===` on Numbers (6.1.6.1.13 Number::equal): NaN equals nothing, and the two zeros are equal.
    pub fn num_eq(&self, other: &JsNumber) -> bool
        ensures { result ≡ are_equal self.now other.now }
    {
        match (self, other) {
            (JsNumber::NaN, _) | (_, JsNumber::NaN) => false,
            (left, right) => *left == *right || left.is_zero() && right.is_zero(),
        }
    }
}
