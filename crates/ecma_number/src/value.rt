//! What is known of a value before the program runs.
ghost use Rattle.std.specs.Prelude.{◌≡◌, not, MatchResult};
ghost use Rattle.ecma_number.specs.Value.{is_known, conjunction_of, disjunction_of};

use std::error::Error;
use std::fmt;
use std::ops::Not;

/// A value that is known, or nothing known of it.
#[derive(Debug, Clone, Copy, PartialEq, Eq, PartialOrd, Ord, Hash, Drop)]
pub enum Value<T> {
    Known(T),
    Unknown,
}

/// What is known of a truth.
pub type BoolValue = Value<bool>;

/// Nothing is known of the value.
#[derive(Debug, Clone, Copy, PartialEq, Eq)]
pub struct UnknownError;

impl fmt::Display for UnknownError {
    ghost use Rattle.std.specs.Prelude.{Some, codes};

    ghost output = { λ _. Some (codes "the value is unknown") };

    fn fmt<W: fmt::Write>(&self, f: &mut fmt::Formatter<W>) -> fmt::Result {
        f.write_str("the value is unknown")
    }
}

impl Error for UnknownError {}

impl<T> Value<T> {
    /// The value, or an error exactly where it is unknown.
    pub fn into_result(self) -> Result<T, UnknownError>
        ensures { MatchResult result (λ value. self ≡ Value.Known value) (λ _. self ≡ Value.Unknown) }
    {
        match self {
            Value::Known(value) => Ok(value),
            Value::Unknown => Err(UnknownError),
        }
    }

    /// Whether the value is known.
    pub fn is_known(&self) -> bool
        ensures { result ≡ is_known self.now }
    {
        matches!(self, Value::Known(_))
    }

    /// Whether nothing is known of the value.
    pub fn is_unknown(&self) -> bool
        ensures { result ≡ not (is_known self.now) }
    {
        !self.is_known()
    }
}

impl Value<bool> {
    /// `&&` in three-valued logic: false where a side is known to be false.
    pub fn and(self, other: Self) -> Self
        ensures { result ≡ conjunction_of self other }
    {
        match (self, other) {
            (Value::Known(false), _) | (_, Value::Known(false)) => Value::Known(false),
            (Value::Known(true), Value::Known(true)) => Value::Known(true),
            _ => Value::Unknown,
        }
    }

    /// `||` in three-valued logic: true where a side is known to be true.
    pub fn or(self, other: Self) -> Self
        ensures { result ≡ disjunction_of self other }
    {
        match (self, other) {
            (Value::Known(true), _) | (_, Value::Known(true)) => Value::Known(true),
            (Value::Known(false), Value::Known(false)) => Value::Known(false),
            _ => Value::Unknown,
        }
    }
}

impl Not for Value<bool> {
    ghost use Rattle.ecma_number.specs.Value.{logical_not};

    type Output = Self;

    ghost not_gives = { λ value negated. negated ≡ logical_not value };

    fn not(self) -> Self {
        match self {
            Value::Known(value) => Value::Known(!value),
            Value::Unknown => Value::Unknown,
        }
    }
}
