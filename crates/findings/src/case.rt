//! A module, and what is found in it.
use ecma_find::{
    IdentUsageFinder, VarCollector, collect_decls, contains_arguments, contains_ident_ref,
    contains_this_expr, contains_top_level_await, extract_var_ids, find_pat_ids,
    for_each_binding_ident, has_rest_pat,
};
use ecma_text::read_plain;
use ecma_tree::{Id, Ident, JsWord, Kind, NoMemory, Node, NodeRef, SyntaxContext};
use item_list::ItemList;
use std::alloc::Global;
use std::collections::HashSet;
use std::io::{self, Write};

/// The longest text that is read, so that its places are no larger than a `u32`.
const MOST: usize = 0xffff_ffff;

/// What is found in a module. The name that is looked for is `a`.
#[derive(Drop)]
struct Findings {
    references: bool,
    usages: bool,
    vars: ItemList<Ident>,
    pattern: ItemList<JsWord>,
    collected: ItemList<JsWord>,
    declared: HashSet<JsWord>,
}

fn find(alloc: Global, part: NodeRef<'_>) -> Result<Findings, NoMemory> {
    let id: Id = (JsWord::new(alloc, "a")?, SyntaxContext::empty());
    let mut collected: ItemList<JsWord> = ItemList::new(alloc);
    let mut collector = VarCollector { to: &mut collected };
    collector.visit_node(alloc, part)?;
    Ok(Findings {
        references: contains_ident_ref(part, &id),
        usages: IdentUsageFinder::find(&id, part),
        vars: extract_var_ids(alloc, part)?,
        pattern: find_pat_ids::<JsWord>(alloc, part)?,
        collected,
        declared: collect_decls::<JsWord>(alloc, part)?,
    })
}

/// Writes a line for each finder: its name, and what it finds.
pub fn show<W: Write>(alloc: Global, out: &mut W, text: &str) -> io::Result<()> {
    if MOST < text.len() {
        return writeln!(out, "too long");
    }
    let Ok(module) = read_plain(alloc, text, false) else {
        return writeln!(out, "refused");
    };
    let part = NodeRef::Module(&module);
    let Ok(findings) = find(alloc, part) else {
        return writeln!(out, "no memory");
    };
    show_truths(out, part, &findings)?;
    show_lists(out, &findings)?;
    show_declared(out, &findings)?;
    show_bindings(out, part)
}

fn show_truths<W: Write>(out: &mut W, part: NodeRef<'_>, findings: &Findings) -> io::Result<()> {
    writeln!(out, "this {}", contains_this_expr(part))?;
    writeln!(out, "arguments {}", contains_arguments(part))?;
    writeln!(out, "reference {}", findings.references)?;
    writeln!(out, "usage {}", findings.usages)?;
    writeln!(out, "await {}", contains_top_level_await(part))?;
    writeln!(out, "rest {}", has_rest_pat(part))
}

/// Writes the names of a list in order.
fn show_names<W: Write>(out: &mut W, title: &str, names: &ItemList<JsWord>) -> io::Result<()> {
    write!(out, "{title}")?;
    for name in names.as_slice() {
        write!(out, " {}", name.as_str())?;
    }
    writeln!(out)
}

fn show_lists<W: Write>(out: &mut W, findings: &Findings) -> io::Result<()> {
    write!(out, "vars")?;
    for ident in findings.vars.as_slice() {
        write!(out, " {}", ident.sym.as_str())?;
    }
    writeln!(out)?;
    show_names(out, "pattern", &findings.pattern)?;
    show_names(out, "collected", &findings.collected)
}

/// Writes how many names are declared, and which of the identifiers outside expressions are, in the order of the text.
fn show_declared<W: Write>(out: &mut W, findings: &Findings) -> io::Result<()> {
    write!(out, "declared {}", findings.declared.len())?;
    for name in findings.pattern.as_slice() {
        if findings.declared.contains(name) {
            write!(out, " {}", name.as_str())?;
        }
    }
    writeln!(out)
}

/// Writes how many names are bound in patterns, and how many of them are `a`.
fn show_bindings<W: Write>(out: &mut W, part: NodeRef<'_>) -> io::Result<()> {
    let mut all = 0u64;
    let mut of_a = 0u64;
    for_each_binding_ident(part, |node: &Node| {
        all = all.wrapping_add(1);
        if is_a(node) {
            of_a = of_a.wrapping_add(1);
        }
    });
    writeln!(out, "bindings {all} {of_a}")
}

fn is_a(binding: &Node) -> bool {
    match binding.children.get(0) {
        Some(ident) => match &ident.kind {
            Kind::Ident { sym, .. } => sym.as_str() == "a",
            _ => false,
        },
        None => false,
    }
}
