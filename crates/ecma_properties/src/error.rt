//! Why a class with parameter properties is not lowered.
ghost use Rattle.std.specs.Prelude.{◌≡◌};
ghost use Rattle.ecma_properties.specs.declared.error.PropertyError.TheVariants as property_error;

use ecma_tree::NoMemory;
use thiserror::Error;

/// What a class with parameter properties has to keep.
#[derive(Clone, Copy, Debug, PartialEq, Eq)]
pub enum Rule {
    /// A key in brackets of a field with a value gets a variable before the statement of the nearest list: so between the class and that list stands no function, no value
    /// of a member of a class or of an enum, and no loop but for the statements of a block.
    KeyAlias,
    /// Where it extends another class, its constructor has one `super(..)` of its own, as a statement of its body.
    SuperPlace,
}

/// Why a class with parameter properties is not lowered.
#[derive(Clone, Copy, Debug, PartialEq, Eq, Error)]
pub enum PropertyError {
    /// A class breaks a rule; `at` is where it begins.
    #[error("a class with parameter properties at {at} breaks {rule:?}")]
    Unlowered { rule: Rule, at: u32 },
    #[error("out of memory")]
    NoMemory,
}

impl From<NoMemory> for PropertyError {
    ghost from_gives = { λ _ error. error ≡ property_error.NoMemory };

    fn from(_: NoMemory) -> PropertyError {
        PropertyError::NoMemory
    }
}
