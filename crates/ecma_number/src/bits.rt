//! ECMAScript's operators on 32 bits. Each takes both sides modulo 2^32 and a shift count modulo 32,
//! so a result always lies in the domain.
ghost use Rattle.std.specs.Prelude.{◌≡◌, Some, bit_and, bit_or, bit_xor};
ghost use Rattle.ecma_number.specs.Bits.{uint32_of, int32_of, shift_count_of, complement_of, left_shift_of, right_shift_of, unsigned_right_shift_of, bitwise};

use crate::JsNumber;

/// ToInt32 (ECMAScript, 7.1.6) of a Number.
pub fn to_int32(number: JsNumber) -> i32
    ensures { result ≡ int32_of number }
{
    number.as_int32()
}

impl JsNumber {
    /// ToUint32 (7.1.7): the value modulo 2^32, and 0 for NaN and the infinities.
    pub fn as_uint32(&self) -> u32
        ensures { result ≡ uint32_of self.now }
    {
        self.value().rem_euclid(1 << 32) as u32
    }

    /// ToInt32 (7.1.6): the same 32 bits, read with a sign.
    pub fn as_int32(&self) -> i32
        ensures { result ≡ int32_of self.now }
    {
        self.as_uint32().cast_signed()
    }

    fn shift_count(&self) -> u32
        ensures { result ≡ shift_count_of self.now }
    {
        self.as_uint32() % 32
    }

    /// `~x` (6.1.6.1.2 Number::bitwiseNOT).
    pub fn not(self) -> Option<JsNumber>
        ensures { result ≡ Some (complement_of self) }
    {
        Some(JsNumber::from(!self.as_int32()))
    }

    /// `<<` (6.1.6.1.9 Number::leftShift).
    pub fn shl(self, other: JsNumber) -> Option<JsNumber>
        ensures { result ≡ Some (left_shift_of self other) }
    {
        Some(JsNumber::from(self.as_int32() << other.shift_count()))
    }

    /// `>>` (6.1.6.1.10 Number::signedRightShift).
    pub fn shr(self, other: JsNumber) -> Option<JsNumber>
        ensures { result ≡ Some (right_shift_of self other) }
    {
        Some(JsNumber::from(self.as_int32() >> other.shift_count()))
    }

    /// `>>>` (6.1.6.1.11 Number::unsignedRightShift).
    pub fn unsigned_shr(self, other: JsNumber) -> Option<JsNumber>
        ensures { result ≡ Some (unsigned_right_shift_of self other) }
    {
        Some(JsNumber::from(self.as_uint32() >> other.shift_count()))
    }

    /// `&` (6.1.6.1.17 Number::bitwiseAND).
    pub fn bit_and(self, other: JsNumber) -> Option<JsNumber>
        ensures { result ≡ Some (bitwise bit_and self other) }
    {
        let bits = self.as_uint32() & other.as_uint32();
        Some(JsNumber::from(bits.cast_signed()))
    }

    /// `|` (6.1.6.1.19 Number::bitwiseOR).
    pub fn bit_or(self, other: JsNumber) -> Option<JsNumber>
        ensures { result ≡ Some (bitwise bit_or self other) }
    {
        let bits = self.as_uint32() | other.as_uint32();
        Some(JsNumber::from(bits.cast_signed()))
    }

    /// `^` (6.1.6.1.18 Number::bitwiseXOR).
    pub fn bit_xor(self, other: JsNumber) -> Option<JsNumber>
        ensures { result ≡ Some (bitwise bit_xor self other) }
    {
        let bits = self.as_uint32() ^ other.as_uint32();
        Some(JsNumber::from(bits.cast_signed()))
    }
}
