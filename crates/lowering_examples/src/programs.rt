//! Small programs of TypeScript, written as ECMAScript by the one pass of `ecma_lower_strip`.
use TsImportExportAssignConfig::{EsNext, NodeNext, Preserve};
use With::{Assign, NoEmptyExport, Nothing, PreserveUnused, Verbatim};
use ecma_config::{Config, ImportsNotUsedAsValues, TsImportExportAssignConfig};
use ecma_hygiene::hygiene;
use ecma_lower::LowerError;
use ecma_lower_strip::{TypeScriptError, typescript};
use ecma_print::print_module;
use ecma_scope::resolve;
use ecma_text::read_module;
use ecma_tree::{Mark, Module, NoMemory, PassError, Session};
use std::alloc::Global;
use std::test::Fail;

/// The one option that is not the default.
#[derive(Clone, Copy, Debug)]
enum With {
    Nothing,
    Verbatim,
    PreserveUnused,
    NoEmptyExport,
    Assign(TsImportExportAssignConfig),
}

fn config_of(with: With) -> Config {
    let mut config = Config::default();
    match with {
        Nothing => {}
        Verbatim => config.verbatim_module_syntax = true,
        PreserveUnused => config.import_not_used_as_values = ImportsNotUsedAsValues::Preserve,
        NoEmptyExport => config.no_empty_export = true,
        Assign(assign) => config.import_export_assign_config = assign,
    }
    config
}

/// The longest text that is read.
const MOST: usize = 0xffff_ffff;

fn read(alloc: Global, text: &str) -> Option<Module> {
    if MOST < text.len() {
        return None;
    }
    match read_module(alloc, text) {
        Ok(module) => Some(module),
        Err(_) => None,
    }
}

fn resolve_with(
    alloc: Global,
    session: &mut Session,
    tree: &mut Module,
) -> Result<(Mark, Mark), PassError> {
    let unresolved = session.fresh_mark()?;
    let top = session.fresh_mark()?;
    resolve(alloc, session, tree, unresolved, top)?;
    Ok((unresolved, top))
}

fn convert(alloc: Global, config: Config, tree: &mut Module) -> Result<(), TypeScriptError> {
    let mut session = Session::new(100);
    let (unresolved, top) = resolve_with(alloc, &mut session, tree)?;
    let mut pass = typescript(config, unresolved, top);
    pass.visit_mut_program(alloc, &mut session, tree)
}

fn shown(alloc: Global, tree: &mut Module) -> Result<Vec<u8>, NoMemory> {
    hygiene(alloc, tree)?;
    print_module(alloc, tree)
}

// A function that may let go of a node is proved for every kind that it may have: so this one alone does.
fn let_go(_tree: Module) {}

/// The text that is written of a text, or why none is.
fn written(alloc: Global, with: With, text: &str) -> Result<Vec<u8>, TypeScriptError> {
    let Some(mut tree) = read(alloc, text) else {
        return Err(TypeScriptError::Spent);
    };
    let done = convert(alloc, config_of(with), &mut tree);
    let text = shown(alloc, &mut tree);
    let_go(tree);
    done?;
    Ok(text?)
}

/// A program, and what is written of it.
const WRITTEN: [(With, &str, &str); 11] = [
    (
        Nothing,
        "import { A } from \"m\"; let x: A;",
        "let x;\nexport {};\n",
    ),
    (
        NoEmptyExport,
        "import { A } from \"m\"; let x: A;",
        "let x;\n",
    ),
    (
        Nothing,
        "import { A, type B } from \"m\"; A();",
        "import { A } from \"m\";\nA();\n",
    ),
    (
        Verbatim,
        "import { A, type B } from \"m\"; let x: A;",
        "import { A } from \"m\";\nlet x;\n",
    ),
    (
        Nothing,
        "import \"m\"; import {} from \"n\"; import { type T } from \"o\"",
        "import \"m\";\nimport \"n\";\n",
    ),
    (
        PreserveUnused,
        "import \"m\"; import {} from \"n\"; import { type T } from \"o\"",
        "import \"m\";\nimport \"n\";\nimport \"o\";\n",
    ),
    (
        Nothing,
        "import fs = require(\"fs\"); fs.f(); export = fs;",
        "const fs = require(\"fs\");\nfs.f();\nmodule.exports = fs;\nexport {};\n",
    ),
    (
        Assign(Preserve),
        "import fs = require(\"fs\"); fs.f(); export = fs;",
        "import fs = require(\"fs\");\nfs.f();\nexport = fs;\n",
    ),
    (
        Assign(NodeNext),
        "import fs = require(\"fs\"); fs.f();",
        "import { createRequire as _createRequire } from \"module\";\nconst __require = _createRequire(import.meta.url);\nconst fs = __require(\"fs\");\nfs.f();\n",
    ),
    (
        Assign(EsNext),
        "import a = require(\"m\"); f();",
        "f();\nexport {};\n",
    ),
    (Nothing, "let x: number = f(1);", "let x = f(1);\n"),
];

#[test]
fn programs_are_written(rt: HostRuntime) -> Result<(), Fail> {
    let alloc = rt.alloc();
    for (with, text, wanted) in WRITTEN {
        let bytes = written(alloc, with, text)?;
        assert_eq!(rt; std::str::from_utf8(bytes.as_slice())?, wanted, "{text}");
    }
    Ok(())
}

/// The refusal of lowering that is told of a program, if one is.
fn refused(alloc: Global, with: With, text: &str) -> Option<LowerError> {
    match written(alloc, with, text) {
        Err(TypeScriptError::Lower(refusal)) => Some(refusal),
        _ => None,
    }
}

#[test]
fn programs_are_refused(rt: HostRuntime) -> Result<(), Fail> {
    let alloc = rt.alloc();
    let text = "import fs = require(\"fs\"); fs.f(); export = fs;";
    assert_eq!(rt;
        refused(alloc, Assign(NodeNext), text),
        Some(LowerError::ExportAssign { at: 35 })
    );
    assert_eq!(rt;
        refused(alloc, Assign(EsNext), text),
        Some(LowerError::ImportAssign { at: 0 })
    );
    let twice = written(alloc, Nothing, "let a; let a;");
    assert!(rt; matches!(twice, Err(TypeScriptError::Scope(_))));
    Ok(())
}
