//! Macros for names, texts and members. Each call is one of a function of this crate, which has the contract; the result of all but
//! `quote_expr!` is a `Result`, whose only refusal is want of memory, and of `private_ident!` also that the session is spent.

/// An identifier in a fresh context: `private_ident!(alloc, session, "a")`, or with its span before the text.
#[macro_export]
macro_rules! private_ident {
    ($alloc:expr, $session:expr, $text:expr) => {
        $crate::fresh_ident($alloc, $session, $crate::DUMMY_SP, $text)
    };
    ($alloc:expr, $session:expr, $span:expr, $text:expr) => {
        $crate::fresh_ident($alloc, $session, $span, $text)
    };
}

/// A key, `quote_ident!(alloc, "a")`; an identifier, `quote_ident!(alloc, ctxt, "a")`, or with its span before the text.
#[macro_export]
macro_rules! quote_ident {
    ($alloc:expr, $text:expr) => {
        $crate::key_of_text($alloc, $crate::DUMMY_SP, $text)
    };
    ($alloc:expr, $ctxt:expr, $text:expr) => {
        $crate::ident_of_text($alloc, $ctxt, $crate::DUMMY_SP, $text)
    };
    ($alloc:expr, $ctxt:expr, $span:expr, $text:expr) => {
        $crate::ident_of_text($alloc, $ctxt, $span, $text)
    };
}

/// A text literal without source text: `quote_str!(alloc, "a")`, or with its span before the text.
#[macro_export]
macro_rules! quote_str {
    ($alloc:expr, $text:expr) => {
        $crate::literal_of_text($alloc, $crate::DUMMY_SP, $text)
    };
    ($alloc:expr, $span:expr, $text:expr) => {
        $crate::literal_of_text($alloc, $span, $text)
    };
}

/// `quote_expr!(alloc, span, null)` is `null`.
#[macro_export]
macro_rules! quote_expr {
    ($alloc:expr, $span:expr, null) => {
        $crate::null_literal($alloc, $span)
    };
}

/// A name, or a member of a name: `member_expr!(alloc, ctxt, span, Function.prototype.bind)`. Its names have the span.
#[macro_export]
macro_rules! member_expr {
    ($alloc:expr, $ctxt:expr, $span:expr, $first:ident) => {
        $crate::name_of_text($alloc, $ctxt, $span, stringify!($first))
    };
    ($alloc:expr, $ctxt:expr, $span:expr, $first:ident . $($rest:tt)+) => {
        $crate::member_expr!(@behind $alloc, $span, $crate::name_of_text($alloc, $ctxt, $span, stringify!($first)), $($rest)+)
    };
    (@behind $alloc:expr, $span:expr, $object:expr, $name:ident) => {
        $crate::member_of_text($alloc, $span, $object, stringify!($name))
    };
    (@behind $alloc:expr, $span:expr, $object:expr, $name:ident . $($rest:tt)+) => {
        $crate::member_expr!(@behind $alloc, $span, $crate::member_of_text($alloc, $span, $object, stringify!($name)), $($rest)+)
    };
}
