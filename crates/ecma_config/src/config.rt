//! The options and their values; each is off by default, and of several values the first one is taken.
use serde::Deserialize;

/// What becomes of an import none of whose names is used as a value.
#[derive(Clone, Copy, Debug, Default, Deserialize, PartialEq, Eq)]
#[serde(rename_all = "camelCase")]
pub enum ImportsNotUsedAsValues {
    /// It goes: `import { a } from "m"` leaves nothing.
    #[default]
    Remove,
    /// Its names go: `import { a } from "m"` becomes `import "m"`.
    Preserve,
}

/// Another name of [`ImportsNotUsedAsValues`].
pub type ImportNotUsedAsValues = ImportsNotUsedAsValues;

/// How `import a = require("m")` and `export = e` are written.
#[derive(Clone, Copy, Debug, Default, Deserialize, PartialEq, Eq)]
pub enum TsImportExportAssignConfig {
    /// As `const a = require("m")` and `module.exports = e`.
    #[default]
    Classic,
    /// As they stand.
    Preserve,
    /// With a `require` that `createRequire` makes; `export = e` is refused.
    NodeNext,
    /// Both are refused.
    EsNext,
}

/// The options that say what a module means, and which of its declarations are written.
#[derive(Clone, Copy, Debug, Default, Deserialize, PartialEq, Eq)]
#[serde(rename_all = "camelCase", default)]
pub struct Config {
    /// Whether of imports and exports only what is written `type` goes.
    pub verbatim_module_syntax: bool,
    /// What becomes of an import none of whose names is used as a value.
    pub import_not_used_as_values: ImportsNotUsedAsValues,
    /// Whether no `export {}` is written for a module that would be left without imports and exports.
    pub no_empty_export: bool,
    /// How import and export assignments are written.
    pub import_export_assign_config: TsImportExportAssignConfig,
    /// Whether members of an enum that is not `const` may change, so that reads of them stay.
    pub ts_enum_is_mutable: bool,
}
