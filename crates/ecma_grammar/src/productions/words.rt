//! The words in which productions are written.
use super::*;

/// One after the other.
macro_rules! all {
    ($only:expr) => { $only };
    ($first:expr, $($rest:expr),+) => { Production::Then(&$first, &all!($($rest),+)) };
}

pub(super) use all;

/// Each where those before it fail.
macro_rules! first_of {
    ($only:expr) => { $only };
    ($first:expr, $($rest:expr),+) => { Production::Or(&$first, &first_of!($($rest),+)) };
}

pub(super) use first_of;

macro_rules! token {
    ($kind:expr) => { Production::Take(Terminal::Kind($kind)) };
}

pub(super) use token;

macro_rules! word {
    ($word:expr) => { Production::Take(Terminal::Word($word)) };
}

pub(super) use word;

macro_rules! punct {
    ($punctuator:expr) => { Production::Take(Terminal::Punct($punctuator)) };
}

pub(super) use punct;

/// What may be missing, of which nothing is kept.
macro_rules! optional {
    ($part:expr) => { Production::Or(&$part, &Nothing) };
}

pub(super) use optional;

/// A child that may be missing.
macro_rules! maybe {
    ($part:expr) => { Production::Or(&$part, &Put(Flag::Absent)) };
}

pub(super) use maybe;

/// It is kept whether it was there.
macro_rules! whether {
    ($part:expr) => { Production::Or(&all!($part, Put(Flag::Present)), &Put(Flag::Absent)) };
}

pub(super) use whether;

/// With commas between, and perhaps one after the last.
macro_rules! commas {
    ($part:expr) => { Production::Or(&all!($part, Many(&all!(punct!(","), $part)), optional!(punct!(","))), &Nothing) };
}

pub(super) use commas;

macro_rules! node {
    ($plain:expr, $part:expr) => { Build(Form::Node($plain), &$part) };
}

pub(super) use node;

/// A node of which only the place is kept.
macro_rules! bare {
    ($plain:expr, $part:expr) => { Build(Form::Bare($plain), &$part) };
}

pub(super) use bare;

/// A node whose first child stands in front of it.
macro_rules! item {
    ($plain:expr, $part:expr) => { Build(Form::Node($plain), &all!(Put(Flag::Absent), $part)) };
}

pub(super) use item;

macro_rules! list {
    ($part:expr) => { Build(Form::List, &$part) };
}

pub(super) use list;
