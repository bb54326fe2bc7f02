//! The options are read from JSON: each field by its name, and what is absent takes its default.
use super::*;
use std::test::Fail;

/// A JSON object, and its truths: `verbatim_module_syntax`, `no_empty_export`, `ts_enum_is_mutable`.
const TRUTHS: [(&str, [bool; 3]); 4] = [
    ("{}", [false, false, false]),
    (r#"{"verbatimModuleSyntax":true}"#, [true, false, false]),
    (r#"{"noEmptyExport":true}"#, [false, true, false]),
    (r#"{"tsEnumIsMutable":true}"#, [false, false, true]),
];

#[test]
fn fields_are_off_or_read_by_name(rt: HostRuntime) -> Result<(), Fail> {
    let alloc = rt.alloc();
    for (text, truths) in TRUTHS {
        let config: Config = serde_json::from_str(alloc, text)?;
        let read = [
            config.verbatim_module_syntax,
            config.no_empty_export,
            config.ts_enum_is_mutable,
        ];
        assert_eq!(rt; read, truths, "{text}");
        assert_eq!(rt;
            config.import_not_used_as_values,
            ImportsNotUsedAsValues::Remove
        );
        assert_eq!(rt;
            config.import_export_assign_config,
            TsImportExportAssignConfig::Classic
        );
    }
    Ok(())
}

/// What is read of a use of imports.
const USES: [(&str, ImportsNotUsedAsValues); 2] = [
    (
        r#"{"importNotUsedAsValues":"remove"}"#,
        ImportsNotUsedAsValues::Remove,
    ),
    (
        r#"{"importNotUsedAsValues":"preserve"}"#,
        ImportsNotUsedAsValues::Preserve,
    ),
];

#[test]
fn unused_imports_go_or_stay(rt: HostRuntime) -> Result<(), Fail> {
    let alloc = rt.alloc();
    for (text, wanted) in USES {
        let config: Config = serde_json::from_str(alloc, text)?;
        assert_eq!(rt; config.import_not_used_as_values, wanted, "{text}");
    }
    Ok(())
}

/// What is read of a way to write assignments.
const ASSIGNS: [(&str, TsImportExportAssignConfig); 4] = [
    (
        r#"{"importExportAssignConfig":"Classic"}"#,
        TsImportExportAssignConfig::Classic,
    ),
    (
        r#"{"importExportAssignConfig":"Preserve"}"#,
        TsImportExportAssignConfig::Preserve,
    ),
    (
        r#"{"importExportAssignConfig":"NodeNext"}"#,
        TsImportExportAssignConfig::NodeNext,
    ),
    (
        r#"{"importExportAssignConfig":"EsNext"}"#,
        TsImportExportAssignConfig::EsNext,
    ),
];

#[test]
fn assignments_are_written_one_of_four_ways(rt: HostRuntime) -> Result<(), Fail> {
    let alloc = rt.alloc();
    for (text, wanted) in ASSIGNS {
        let config: Config = serde_json::from_str(alloc, text)?;
        assert_eq!(rt; config.import_export_assign_config, wanted, "{text}");
    }
    Ok(())
}

#[test]
fn without_words_each_option_is_off(rt: HostRuntime) -> Result<(), Fail> {
    let read: Config = serde_json::from_str(rt.alloc(), "{}")?;
    assert!(rt; read == Config::default());
    Ok(())
}
