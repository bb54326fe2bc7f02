//! Types of values, and purity of evaluations.
ghost use Rattle.std.specs.Prelude.{◌≡◌};
ghost use Rattle.ecma_number.specs.Types.{is_pure, casted_to_number_on_add, IsPuritySum};

use crate::Value;
use std::ops::Add;

/// The type of a value (ECMAScript, 6.1); what is none of the others is an object.
#[derive(Debug, Clone, Copy, PartialEq, Eq, PartialOrd, Ord, Hash)]
pub enum JsType {
    Undefined,
    Null,
    Bool,
    Str,
    Symbol,
    Num,
    Obj,
}

impl Value<JsType> {
    /// Whether `+` is known to add a value of this type as a Number (ECMAScript, 13.15.3
    /// ApplyStringOrNumericBinaryOperator): an undefined, a null, a truth or a Number.
    pub fn casted_to_number_on_add(self) -> bool
        ensures { result ≡ casted_to_number_on_add self }
    {
        matches!(
            self,
            Value::Known(JsType::Bool | JsType::Null | JsType::Num | JsType::Undefined)
        )
    }
}

/// Whether an evaluation is known to have no effect. An impure one comes first in the order.
#[derive(Debug, Clone, Copy, PartialEq, Eq, PartialOrd, Ord, Hash)]
pub enum Purity {
    MayBeImpure,
    Pure,
}

impl Purity {
    /// Whether it is `Pure`.
    pub fn is_pure(self) -> bool
        ensures { result ≡ is_pure self }
    {
        matches!(self, Purity::Pure)
    }
}

/// The purity of two evaluations: pure exactly if both are.
impl Add for Purity {
    type Output = Purity;

    ghost add_gives = { IsPuritySum };

    fn add(self, other: Purity) -> Purity {
        match (self, other) {
            (Purity::Pure, Purity::Pure) => Purity::Pure,
            _ => Purity::MayBeImpure,
        }
    }
}
