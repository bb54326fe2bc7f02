//! Kinds with their own data.
use ecma_number::JsNumber;
use ecma_tree::{Accessibility, JsWord, Kind, MemberModifiers, SyntaxContext};
use std::io::{self, Write};

/// Writes a text in quotes, so that it stands in one line.
fn show_text<W: Write>(out: &mut W, text: &str) -> io::Result<()> {
    write!(out, " \"")?;
    for character in text.chars() {
        match character {
            '\n' => write!(out, "\\n")?,
            '\r' => write!(out, "\\r")?,
            '"' => write!(out, "\\\"")?,
            '\\' => write!(out, "\\\\")?,
            _ => write!(out, "{character}")?,
        }
    }
    write!(out, "\"")
}

/// Writes a text, or that there is none.
fn show_maybe<W: Write>(out: &mut W, text: &Option<JsWord>) -> io::Result<()> {
    match text {
        Some(text) => show_text(out, text.as_str()),
        None => write!(out, " none"),
    }
}

/// Writes a word where it is said.
fn show_flag<W: Write>(out: &mut W, is_set: bool, word: &str) -> io::Result<()> {
    if is_set {
        write!(out, " {word}")
    } else {
        Ok(())
    }
}

fn show_accessibility<W: Write>(
    out: &mut W,
    accessibility: Option<Accessibility>,
) -> io::Result<()> {
    match accessibility {
        Some(Accessibility::Public) => write!(out, " public"),
        Some(Accessibility::Protected) => write!(out, " protected"),
        Some(Accessibility::Private) => write!(out, " private"),
        None => Ok(()),
    }
}

fn show_modifiers<W: Write>(out: &mut W, modifiers: &MemberModifiers) -> io::Result<()> {
    show_accessibility(out, modifiers.accessibility)?;
    show_flag(out, modifiers.is_static, "static")?;
    show_flag(out, modifiers.is_abstract, "abstract")?;
    show_flag(out, modifiers.is_override, "override")?;
    show_flag(out, modifiers.is_optional, "optional")
}

fn show_number<W: Write>(out: &mut W, value: &Option<JsNumber>) -> io::Result<()> {
    match value {
        Some(JsNumber::Whole(number)) => write!(out, " {}", number.get()),
        Some(value) => write!(out, " {value:?}"),
        None => write!(out, " none"),
    }
}

/// Writes a name; or says that the kind is none.
fn show_name<W: Write>(out: &mut W, kind: &Kind) -> io::Result<bool> {
    match kind {
        Kind::Ident {
            sym,
            ctxt,
            optional,
        } => {
            write!(out, "Ident")?;
            show_text(out, sym.as_str())?;
            show_flag(out, *ctxt != SyntaxContext::empty(), "resolved")?;
            show_flag(out, *optional, "optional")?;
        }
        Kind::IdentName { sym } => {
            write!(out, "IdentName")?;
            show_text(out, sym.as_str())?;
        }
        Kind::PrivateName { name } => {
            write!(out, "PrivateName")?;
            show_text(out, name.as_str())?;
        }
        Kind::Module { shebang } => {
            write!(out, "Module")?;
            show_maybe(out, shebang)?;
        }
        _ => return Ok(false),
    }
    Ok(true)
}

/// Writes a literal with texts, or a part of a template; or says that the kind is neither.
fn show_literal<W: Write>(out: &mut W, kind: &Kind) -> io::Result<bool> {
    match kind {
        Kind::Str { value, raw } => {
            write!(out, "Str")?;
            show_text(out, value.as_str())?;
            show_maybe(out, raw)?;
        }
        Kind::Number { value, raw } => {
            write!(out, "Number")?;
            show_number(out, value)?;
            show_maybe(out, raw)?;
        }
        Kind::BigInt { value, raw } => {
            write!(out, "BigInt")?;
            show_text(out, value.as_str())?;
            show_maybe(out, raw)?;
        }
        Kind::Regex { exp, flags } => {
            write!(out, "Regex")?;
            show_text(out, exp.as_str())?;
            show_text(out, flags.as_str())?;
        }
        Kind::TplElement { raw, cooked, tail } => {
            write!(out, "TplElement")?;
            show_text(out, raw.as_str())?;
            show_maybe(out, cooked)?;
            show_flag(out, *tail, "tail")?;
        }
        _ => return Ok(false),
    }
    Ok(true)
}

/// Writes a member of a class or a parameter property; or says that the kind is neither.
fn show_member<W: Write>(out: &mut W, kind: &Kind) -> io::Result<bool> {
    match kind {
        Kind::ClassMethod { kind, modifiers } => {
            write!(out, "ClassMethod {kind:?}")?;
            show_modifiers(out, modifiers)?;
        }
        Kind::PrivateMethod { kind, modifiers } => {
            write!(out, "PrivateMethod {kind:?}")?;
            show_modifiers(out, modifiers)?;
        }
        Kind::ClassProp {
            modifiers,
            readonly,
            declare,
            definite,
        } => {
            write!(out, "ClassProp")?;
            show_modifiers(out, modifiers)?;
            show_field(out, *readonly, *declare, *definite)?;
        }
        Kind::PrivateProp {
            modifiers,
            readonly,
            declare,
            definite,
        } => {
            write!(out, "PrivateProp")?;
            show_modifiers(out, modifiers)?;
            show_field(out, *readonly, *declare, *definite)?;
        }
        Kind::Constructor {
            accessibility,
            is_optional,
        } => {
            write!(out, "Constructor")?;
            show_accessibility(out, *accessibility)?;
            show_flag(out, *is_optional, "optional")?;
        }
        Kind::TsParamProp {
            accessibility,
            is_override,
            readonly,
        } => {
            write!(out, "TsParamProp")?;
            show_accessibility(out, *accessibility)?;
            show_flag(out, *is_override, "override")?;
            show_flag(out, *readonly, "readonly")?;
        }
        _ => return Ok(false),
    }
    Ok(true)
}

fn show_field<W: Write>(
    out: &mut W,
    readonly: bool,
    declare: bool,
    definite: bool,
) -> io::Result<()> {
    show_flag(out, readonly, "readonly")?;
    show_flag(out, declare, "declare")?;
    show_flag(out, definite, "definite")
}

/// Writes a kind with its data: as its derived text, but for names, literals and members of classes.
pub fn show_kind<W: Write>(out: &mut W, kind: &Kind) -> io::Result<()> {
    if show_name(out, kind)? || show_literal(out, kind)? || show_member(out, kind)? {
        return Ok(());
    }
    write!(out, "{kind:?}")
}
