//! A law of plain modules that are laid out anew: they are read again as they were read.
//!
//! The function carries the law over the definitions, and does nothing. The law is stated in `specs/Laws.antt`.
#![tactic(auto)]

ghost use Rattle.ecma_round_trip_texts.specs.Laws.{RelaidModulesAreReadAgain};

use ecma_round_trip::what_fits_is_read_again;
use ecma_text_plain::{
    functions_are_usual_by_tests, plain_functions_that_are_read_have_bodies,
    plain_modules_that_are_read_have_plain_items, plain_names_that_are_read_are_not_this,
    plain_trees_that_are_read_are_taken,
};
use ecma_text_sources::trees_that_are_read_are_read;

/// The layout of what was read as a plain module is read again as that tree.
pub fn relaid_modules_are_read_again()
    ensures { RelaidModulesAreReadAgain }
{
    trees_that_are_read_are_read();
    plain_trees_that_are_read_are_taken();
    plain_modules_that_are_read_have_plain_items();
    plain_functions_that_are_read_have_bodies();
    plain_names_that_are_read_are_not_this();
    functions_are_usual_by_tests();
    what_fits_is_read_again();
}
