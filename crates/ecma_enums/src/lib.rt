//! Enums: what is known of their members before a program runs (TypeScript handbook, "Enums").
#![tactic(auto)]

mod computer;
mod declaration;
mod error;
mod folded;
mod folding;
mod joined;
mod keys;
mod known_reads;
mod names;
mod operators;
mod record;
mod value;
mod walk;

pub use computer::EnumValueComputer;
pub use error::EnumError;
pub use known_reads::known_read;
pub use record::{TsEnumRecord, TsEnumRecordEntry, TsEnumRecordKey};
pub use value::TsEnumRecordValue;
pub use walk::record_enums;
