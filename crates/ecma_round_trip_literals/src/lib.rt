//! Laws of the texts that are written for literals without source text.
//!
//! Each function carries laws over the definitions, and does nothing. The laws are stated in `specs/Laws.antt`.
#![tactic(auto)]

ghost use Rattle.ecma_round_trip_literals.specs.Laws.{SourcesDoNotMatterToLayouts, WhatFitsAndIsPlainIsReadAgain, WhatFitsFitsWithSources, WritableLiteralsKeepSpelling, WrittenBigIntsAreSpelled, WrittenNumbersAreSpelled, WrittenTextsAreSpelled};

use ecma_round_trip::what_fits_is_read_again;

/// A tree is laid out as the same text once each literal has the source text that is written for it.
pub fn sources_do_not_matter_to_layouts()
    ensures { SourcesDoNotMatterToLayouts }
{}

/// What is written for a literal is read as one, which says what the literal does; so a literal that is writable is spelled with it as without.
pub fn written_literals_are_spelled()
    ensures big_ints { WrittenBigIntsAreSpelled }
    ensures numbers { WrittenNumbersAreSpelled }
    ensures texts { WrittenTextsAreSpelled }
    ensures kinds { WritableLiteralsKeepSpelling }
{}

/// What fits fits with source texts, where each literal without one is writable.
pub fn what_fits_fits_with_sources()
    ensures { WhatFitsFitsWithSources }
{}

/// What fits and is plain is read again as it is printed, with enough levels and with any more: as that tree, up to spans,
/// contexts, the parentheses of its layout, and source texts that literals lack. The same where import and export assignments stay.
pub fn what_fits_and_is_plain_is_read_again()
    ensures { WhatFitsAndIsPlainIsReadAgain }
{
    what_fits_is_read_again();
}
