//! What the derived equality, order and hash of this crate's types are, each as a call whose contract
//! says it: by variant, in the order in which the variants are declared, and then by field.
ghost use Rattle.std.specs.Prelude.{◌≡◌, ◌↔◌, IsTrue, fold, pos};
ghost use Rattle.std.specs.Hash as fed;
ghost use Rattle.std.specs.Ordering.{nat_cmp};
ghost use Rattle.ecma_number.specs.Derived.{purity_rank, type_rank, value_equality, value_input, value_order};

use crate::{JsNumber, JsType, Purity, Value};
use std::cmp::Ordering;
use std::hash::{Hash, Hasher};

/// `==` of two Numbers: whether they are the same value, so that NaN equals itself and the two zeros
/// differ.
pub fn numbers_equal(left: &JsNumber, right: &JsNumber) -> bool
    ensures { IsTrue result ↔ (left.now ≡ right.now) }
{
    *left == *right
}

/// `==` of two types.
pub fn types_equal(left: &JsType, right: &JsType) -> bool
    ensures { IsTrue result ↔ (left.now ≡ right.now) }
{
    *left == *right
}

/// `cmp` of two types: `Undefined` comes first, then `Null`, `Bool`, `Str`, `Symbol`, `Num` and `Obj`.
pub fn compare_types(left: &JsType, right: &JsType) -> Ordering
    ensures { result ≡ nat_cmp (type_rank left.now) (type_rank right.now) }
{
    left.cmp(right)
}

/// What `hash` of a type feeds a hasher: the rank of its variant, from 0.
pub fn hash_type<H: Hasher>(value: &JsType, state: &mut H)
    ensures { state.new ≡ fold H.write state.old (fed.isize (pos (type_rank value.now))) }
{
    value.hash(state);
}

/// `==` of two purities.
pub fn purities_equal(left: &Purity, right: &Purity) -> bool
    ensures { IsTrue result ↔ (left.now ≡ right.now) }
{
    *left == *right
}

/// `cmp` of two purities: `MayBeImpure` comes first.
pub fn compare_purities(left: &Purity, right: &Purity) -> Ordering
    ensures { result ≡ nat_cmp (purity_rank left.now) (purity_rank right.now) }
{
    left.cmp(right)
}

/// What `hash` of a purity feeds a hasher: the rank of its variant, from 0.
pub fn hash_purity<H: Hasher>(value: &Purity, state: &mut H)
    ensures { state.new ≡ fold H.write state.old (fed.isize (pos (purity_rank value.now))) }
{
    value.hash(state);
}

/// `==` of what is known of two values: of two known ones that of the values.
pub fn values_equal<T: PartialEq>(left: &Value<T>, right: &Value<T>) -> bool
    ensures { result ≡ value_equality T.eq left.now right.now }
{
    *left == *right
}

/// `cmp` of what is known of two values: known ones come first, in the order of the values.
pub fn compare_values<T: Ord>(left: &Value<T>, right: &Value<T>) -> Ordering
    ensures { result ≡ value_order T.cmp left.now right.now }
{
    left.cmp(right)
}

/// What `hash` of what is known of a value feeds a hasher: the rank of its variant, from 0, and then what
/// the value feeds.
pub fn hash_value<T: Hash, H: Hasher>(value: &Value<T>, state: &mut H)
    ensures { state.new ≡ fold H.write state.old (value_input T.hash_input value.now) }
{
    value.hash(state);
}
