//! ECMAScript's arithmetic on Numbers (6.1.6.1). Each operator takes the exact result of two whole
//! numbers, and answers `None` exactly where ECMAScript's result lies outside the domain.
ghost use Rattle.std.specs.Prelude.{◌≡◌, ◌≢◌, ◌≤◌, Some, unsigned_abs, int_div, int_rem};
ghost use Rattle.std.specs.Int.{int_pow};
ghost use Rattle.ecma_number.specs.JsNumber.{whole_of};
ghost use Rattle.ecma_number.specs.SafeInt.{IsSafe};
ghost use Rattle.ecma_number.specs.Arithmetic.{unary_minus_of, sum_of, difference_of, product_of, quotient_of, remainder_of, power_of, is_odd, signs_differ, whole_quotient_of, power_of_infinity, power_of_zero, power_to_infinity, whole_power_of};

use crate::{JsNumber, SafeInt};

impl JsNumber {
    /// The negation, `-x` (6.1.6.1.1 Number::unaryMinus). It always lies in the domain.
    pub fn neg(self) -> Option<JsNumber>
        ensures { result ≡ Some (unary_minus_of self) }
    {
        Some(self.negated())
    }

    fn negated(self) -> JsNumber
        ensures { result ≡ unary_minus_of self }
    {
        match self {
            JsNumber::Whole(number) => {
                if number.get() == 0 {
                    JsNumber::NegZero
                } else {
                    JsNumber::Whole(number.negated())
                }
            }
            JsNumber::NegZero => JsNumber::zero(false),
            JsNumber::NaN => JsNumber::NaN,
            JsNumber::Infinity => JsNumber::NegInfinity,
            JsNumber::NegInfinity => JsNumber::Infinity,
        }
    }

    /// The sum (6.1.6.1.7 Number::add).
    pub fn add(self, other: JsNumber) -> Option<JsNumber>
        ensures { result ≡ sum_of self other }
    {
        match (self, other) {
            (JsNumber::NaN, _) | (_, JsNumber::NaN) => Some(JsNumber::NaN),
            (JsNumber::Infinity, JsNumber::NegInfinity) => Some(JsNumber::NaN),
            (JsNumber::NegInfinity, JsNumber::Infinity) => Some(JsNumber::NaN),
            (JsNumber::Infinity, _) | (_, JsNumber::Infinity) => Some(JsNumber::Infinity),
            (JsNumber::NegInfinity, _) | (_, JsNumber::NegInfinity) => Some(JsNumber::NegInfinity),
            (JsNumber::NegZero, JsNumber::NegZero) => Some(JsNumber::NegZero),
            (left, right) => JsNumber::whole(left.value() + right.value()),
        }
    }

    /// The difference (6.1.6.1.8 Number::subtract).
    pub fn sub(self, other: JsNumber) -> Option<JsNumber>
        ensures { result ≡ difference_of self other }
    {
        self.add(other.negated())
    }

    /// The product (6.1.6.1.4 Number::multiply). A zero has a minus where one side alone has.
    #[tactic(auto, unfolding(crate::specs::Arithmetic::product_of))]
    pub fn mul(self, other: JsNumber) -> Option<JsNumber>
        ensures { result ≡ product_of self other }
    {
        let is_negative = self.sign_differs(&other);
        if self.is_nan() || other.is_nan() {
            return Some(JsNumber::NaN);
        }
        if self.is_infinite() || other.is_infinite() {
            if self.is_zero() || other.is_zero() {
                return Some(JsNumber::NaN);
            }
            return Some(JsNumber::infinity(is_negative));
        }
        match self.value().checked_mul(other.value()) {
            Some(product) => JsNumber::signed_whole(is_negative, product),
            None => None,
        }
    }

    /// The quotient (6.1.6.1.5 Number::divide). Of two whole numbers that leave a remainder there is
    /// none in the domain.
    #[tactic(auto, unfolding(crate::specs::Arithmetic::quotient_of))]
    pub fn div(self, other: JsNumber) -> Option<JsNumber>
        ensures { result ≡ quotient_of self other }
    {
        let is_negative = self.sign_differs(&other);
        if self.is_nan() || other.is_nan() {
            return Some(JsNumber::NaN);
        }
        if self.is_infinite() {
            if other.is_infinite() {
                return Some(JsNumber::NaN);
            }
            return Some(JsNumber::infinity(is_negative));
        }
        if other.is_infinite() {
            return Some(JsNumber::zero(is_negative));
        }
        if other.is_zero() {
            if self.is_zero() {
                return Some(JsNumber::NaN);
            }
            return Some(JsNumber::infinity(is_negative));
        }
        whole_quotient(is_negative, self.value(), other.value())
    }

    /// The remainder, with the sign of `self` (6.1.6.1.6 Number::remainder).
    #[tactic(auto, unfolding(crate::specs::Arithmetic::remainder_of))]
    pub fn rem(self, other: JsNumber) -> Option<JsNumber>
        ensures { result ≡ remainder_of self other }
    {
        if self.is_nan() || other.is_nan() {
            return Some(JsNumber::NaN);
        }
        if self.is_infinite() {
            return Some(JsNumber::NaN);
        }
        if other.is_infinite() {
            return Some(self);
        }
        if other.is_zero() {
            return Some(JsNumber::NaN);
        }
        JsNumber::signed_whole(self.is_negative(), remainder(self.value(), other.value()))
    }

    /// The power (6.1.6.1.3 Number::exponentiate). Below exponent 0 only the powers of 1 and -1 are
    /// whole.
    #[tactic(auto, unfolding(crate::specs::Arithmetic::power_of))]
    pub fn pow(self, exponent: JsNumber) -> Option<JsNumber>
        ensures { result ≡ power_of self exponent }
    {
        let is_negative = self.is_negative() && exponent.is_odd();
        if exponent.is_nan() {
            return Some(JsNumber::NaN);
        }
        if exponent.is_zero() {
            return Some(JsNumber::Whole(SafeInt::ONE));
        }
        if self.is_nan() {
            return Some(JsNumber::NaN);
        }
        if self.is_infinite() {
            return Some(power_of_infinity(is_negative, &exponent));
        }
        if self.is_zero() {
            return Some(power_of_zero(is_negative, &exponent));
        }
        if exponent.is_infinite() {
            return Some(power_to_infinity(self.value(), &exponent));
        }
        whole_power(self.value(), exponent.value())
    }

    fn is_odd(&self) -> bool
        ensures { result ≡ is_odd self.now }
    {
        self.value().unsigned_abs() % 2 == 1
    }

    fn sign_differs(&self, other: &JsNumber) -> bool
        ensures { result ≡ signs_differ self.now other.now }
    {
        self.is_negative() != other.is_negative()
    }
}

fn whole_quotient(is_negative: bool, left: i64, right: i64) -> Option<JsNumber>
    requires left_safe { IsSafe left }
    requires right_safe { IsSafe right }
    requires nonzero { unsigned_abs right ≢ 0 }
    ensures { result ≡ whole_quotient_of is_negative left right }
{
    if remainder(left, right) != 0 {
        return None;
    }
    JsNumber::signed_whole(is_negative, quotient(left, right))
}

fn quotient(left: i64, right: i64) -> i64
    requires left_safe { IsSafe left }
    requires right_safe { IsSafe right }
    requires nonzero { unsigned_abs right ≢ 0 }
    ensures { result ≡ int_div left right }
{
    left / right
}

fn remainder(left: i64, right: i64) -> i64
    requires left_safe { IsSafe left }
    requires right_safe { IsSafe right }
    requires nonzero { unsigned_abs right ≢ 0 }
    ensures { result ≡ int_rem left right }
{
    left % right
}

fn power_of_infinity(is_negative: bool, exponent: &JsNumber) -> JsNumber
    ensures { result ≡ power_of_infinity is_negative exponent.now }
{
    if exponent.is_negative() {
        JsNumber::zero(is_negative)
    } else {
        JsNumber::infinity(is_negative)
    }
}

fn power_of_zero(is_negative: bool, exponent: &JsNumber) -> JsNumber
    ensures { result ≡ power_of_zero is_negative exponent.now }
{
    if exponent.is_negative() {
        JsNumber::infinity(is_negative)
    } else {
        JsNumber::zero(is_negative)
    }
}

fn power_to_infinity(base: i64, exponent: &JsNumber) -> JsNumber
    ensures { result ≡ power_to_infinity base exponent.now }
{
    if base.unsigned_abs() == 1 {
        JsNumber::NaN
    } else if exponent.is_negative() {
        JsNumber::zero(false)
    } else {
        JsNumber::Infinity
    }
}

fn whole_power(base: i64, exponent: i64) -> Option<JsNumber>
    requires base_safe { IsSafe base }
    requires exponent_safe { IsSafe exponent }
    requires nonzero { unsigned_abs base ≢ 0 }
    ensures { result ≡ whole_power_of base exponent }
{
    if base.unsigned_abs() == 1 {
        return JsNumber::whole(unit_power(base, exponent.unsigned_abs()));
    }
    if exponent < 0 {
        return None;
    }
    large_power(base, exponent.unsigned_abs())
}

fn unit_power(base: i64, exponent: u64) -> i64
    requires { unsigned_abs base ≡ 1 }
    ensures { result ≡ int_pow base exponent }
{
    if exponent % 2 == 0 { 1 } else { base }
}

// From exponent 53 on, the power of any base but 0, 1 and -1 lies outside the domain.
fn large_power(base: i64, exponent: u64) -> Option<JsNumber>
    requires large { 2 ≤ unsigned_abs base }
    ensures { result ≡ whole_of (int_pow base exponent) }
{
    if exponent >= 53 {
        return None;
    }
    match base.checked_pow(exponent as u32) {
        Some(power) => JsNumber::whole(power),
        None => None,
    }
}
