//! The options that say what a module means, and which of its declarations are written.
#![tactic(auto)]

mod config;

pub use config::{
    Config, ImportNotUsedAsValues, ImportsNotUsedAsValues, TsImportExportAssignConfig,
};

#[cfg(test)]
mod tests;
