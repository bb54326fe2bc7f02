//! Laws of what is read as a module: it is the source that the laws of the passes ask for.
//!
//! Each function carries one law over the definitions, and does nothing. The laws are stated in `specs/Laws.antt`.
#![tactic(auto)]

ghost use Rattle.ecma_text_sources.specs.Laws.{ReadTreesAreRead, TreesThatNeedNoLoweringAreSources};

use ecma_text_fits::what_is_read_fits;
use ecma_text_plain::leaves_that_are_read_are_bare;

/// What is read as a module, in either mode and with any number of levels, of a UTF-8 text shorter than 2^32 bytes, fits, its leaves are bare, and what
/// stands behind `#!` is UTF-8.
pub fn trees_that_are_read_are_read()
    ensures { ReadTreesAreRead }
{
    what_is_read_fits();
    leaves_that_are_read_are_bare();
}

/// Where no other pass has to lower one of its forms first, and no name is declared again where it may not be, it is a source of a module that is written.
#[tactic(auto, using(crate::proofs::Sources::sources))]
pub fn trees_that_need_no_lowering_are_sources()
    ensures { TreesThatNeedNoLoweringAreSources }
{}
