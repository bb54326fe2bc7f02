//! Assignments of small modules, checked and written by `ecma_lower`, with the passes around it.
use TsImportExportAssignConfig::{Classic, EsNext, NodeNext, Preserve};
use ecma_config::{Config, TsImportExportAssignConfig};
use ecma_hygiene::hygiene;
use ecma_lower::{LowerError, check_lowering, has_module_declaration, mark_module, transform};
use ecma_print::print_module;
use ecma_scope::resolve;
use ecma_strip::strip_type;
use ecma_text::read_module;
use ecma_tree::{Module, PassError, Session};
use std::alloc::Global;
use std::test::Fail;

/// The longest text that is read.
const MOST: usize = 0xffff_ffff;

fn read(alloc: Global, text: &str) -> Option<Module> {
    if MOST < text.len() {
        return None;
    }
    match read_module(alloc, text) {
        Ok(module) => Some(module),
        Err(_) => None,
    }
}

fn config_of(assign: TsImportExportAssignConfig) -> Config {
    Config {
        import_export_assign_config: assign,
        ..Config::default()
    }
}

/// Resolves a module, takes out its types, writes its assignments and gives it its final texts.
fn lower(alloc: Global, config: &Config, tree: &mut Module) -> Result<(), PassError> {
    let mut session = Session::new(100);
    let unresolved = session.fresh_mark()?;
    let top = session.fresh_mark()?;
    let was_module = has_module_declaration(tree);
    resolve(alloc, &mut session, tree, unresolved, top)?;
    strip_type().visit_mut_module(alloc, tree)?;
    let assign = config.import_export_assign_config;
    let mut pass = transform(unresolved, top, assign, false, false);
    pass.visit_mut_module(alloc, &mut session, tree)?;
    mark_module(alloc, config, was_module, tree)?;
    Ok(hygiene(alloc, tree)?)
}

// A function that may let go of a node is proved for every kind that it may have: so this one alone does.
fn let_go(_tree: Module) {}

/// The text of a module that is lowered; none where it is none.
fn lowered(alloc: Global, config: &Config, text: &str) -> Result<Option<Vec<u8>>, Fail> {
    let Some(mut tree) = read(alloc, text) else {
        return Ok(None);
    };
    let done = lower(alloc, config, &mut tree);
    let written = print_module(alloc, &tree);
    let_go(tree);
    done?;
    Ok(Some(written?))
}

/// A module, and what is written of it for an option.
const WRITTEN: [(TsImportExportAssignConfig, &str, &str); 14] = [
    (
        Classic,
        "import fs = require(\"fs\"); fs.f(); export = fs;",
        "const fs = require(\"fs\");\nfs.f();\nmodule.exports = fs;\nexport {};\n",
    ),
    (
        Preserve,
        "import fs = require(\"fs\"); fs.f(); export = fs;",
        "import fs = require(\"fs\");\nfs.f();\nexport = fs;\n",
    ),
    (
        NodeNext,
        "import fs = require(\"fs\"); fs.f();",
        "import { createRequire as _createRequire } from \"module\";\nconst __require = _createRequire(import.meta.url);\nconst fs = __require(\"fs\");\nfs.f();\n",
    ),
    (
        NodeNext,
        "\"use strict\"; f(); export import a = require(\"m\"); import b = require(\"n\");",
        "\"use strict\";\nimport { createRequire as _createRequire } from \"module\";\nconst __require = _createRequire(import.meta.url);\nf();\nexport const a = __require(\"m\");\nconst b = __require(\"n\");\n",
    ),
    (NodeNext, "import a = b.c;", "const a = b.c;\nexport {};\n"),
    (
        NodeNext,
        "import type a = require(\"m\"); f();",
        "f();\nexport {};\n",
    ),
    (
        NodeNext,
        "import(\"a\"); import b = require(\"n\");",
        "import { createRequire as _createRequire } from \"module\";\nconst __require = _createRequire(import.meta.url);\nimport(\"a\");\nconst b = __require(\"n\");\n",
    ),
    (
        NodeNext,
        "let __require = 1; import a = require(\"m\");",
        "import { createRequire as _createRequire } from \"module\";\nconst __require1 = _createRequire(import.meta.url);\nlet __require = 1;\nconst a = __require1(\"m\");\n",
    ),
    (
        Classic,
        "export import a = require(\"m\");",
        "const a = exports.a = require(\"m\");\nexport {};\n",
    ),
    (
        Classic,
        "export import a = b.c.d; import e = a;",
        "export const a = b.c.d;\nconst e = a;\n",
    ),
    (
        Preserve,
        "export import a = b.c; export import d = require(\"m\");",
        "export const a = b.c;\nexport import d = require(\"m\");\n",
    ),
    (
        Classic,
        "export = a as T; const a = 1; f();",
        "const a = 1;\nf();\nmodule.exports = a;\nexport {};\n",
    ),
    (
        Preserve,
        "export = a; const a = 1;",
        "const a = 1;\nexport = a;\n",
    ),
    (Classic, "f();", "f();\n"),
];

#[test]
fn assignments_are_written(rt: HostRuntime) -> Result<(), Fail> {
    let alloc = rt.alloc();
    for (assign, text, wanted) in WRITTEN {
        let written = lowered(alloc, &config_of(assign), text)?;
        let written = written.ok_or("no module")?;
        assert_eq!(rt; std::str::from_utf8(written.as_slice())?, wanted, "{text}");
    }
    Ok(())
}

/// Modules that have an import or an export, and one that has none; and whether `export {}` is written at their end.
const MARKED: [(&str, bool, &str); 5] = [
    (
        "import type { A } from \"m\"; let x: A;",
        false,
        "let x;\nexport {};\n",
    ),
    ("import type { A } from \"m\"; let x: A;", true, "let x;\n"),
    ("export interface A { } f();", false, "f();\nexport {};\n"),
    ("import \"m\"; f();", false, "import \"m\";\nf();\n"),
    ("let x;", false, "let x;\n"),
];

#[test]
fn modules_are_marked(rt: HostRuntime) -> Result<(), Fail> {
    let alloc = rt.alloc();
    for (text, no_empty_export, wanted) in MARKED {
        let config = Config {
            no_empty_export,
            ..Config::default()
        };
        let written = lowered(alloc, &config, text)?;
        let written = written.ok_or("no module")?;
        assert_eq!(rt; std::str::from_utf8(written.as_slice())?, wanted, "{text}");
    }
    Ok(())
}

/// What is refused of a module for an option.
fn refused(alloc: Global, assign: TsImportExportAssignConfig, text: &str) -> Option<LowerError> {
    let tree = read(alloc, text)?;
    let checked = check_lowering(alloc, &tree, &config_of(assign));
    let_go(tree);
    checked.err()
}

/// A module, and the refusal that is told of it for an option.
const REFUSED: [(TsImportExportAssignConfig, &str, Option<LowerError>); 9] = [
    (
        NodeNext,
        "import fs = require(\"fs\"); fs.f(); export = fs;",
        Some(LowerError::ExportAssign { at: 35 }),
    ),
    (
        EsNext,
        "import fs = require(\"fs\"); fs.f(); export = fs;",
        Some(LowerError::ImportAssign { at: 0 }),
    ),
    (
        Classic,
        "import fs = require(\"fs\"); fs.f(); export = fs;",
        None,
    ),
    (
        EsNext,
        "export = a; export import b = require(\"m\");",
        Some(LowerError::ImportAssign { at: 12 }),
    ),
    (
        EsNext,
        "import a = b.c; import type d = require(\"m\");",
        None,
    ),
    (
        Preserve,
        "export = a; f(); export = b; export = c;",
        Some(LowerError::ExportAssignTwice { at: 17 }),
    ),
    (
        EsNext,
        "import a = require(\"m\"); export = a; export = b;",
        Some(LowerError::ExportAssignTwice { at: 37 }),
    ),
    (
        EsNext,
        "f(); import a = require(\"m\"); import b = require(\"n\");",
        Some(LowerError::ImportAssign { at: 5 }),
    ),
    (NodeNext, "import a = require(\"m\");", None),
];

#[test]
fn what_is_not_lowered_is_refused(rt: HostRuntime) -> Result<(), Fail> {
    let alloc = rt.alloc();
    for (assign, text, wanted) in REFUSED {
        assert_eq!(rt; refused(alloc, assign, text), wanted, "{text}");
    }
    Ok(())
}
