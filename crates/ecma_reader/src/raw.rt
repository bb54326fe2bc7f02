//! Reads a whole text.
ghost use Rattle.std.specs.Prelude.{◌≡◌, ◌<◌, ◌^◌, length};
ghost use Rattle.ecma_grammar.specs.Modules.{Answers, answer_of, reads_module_with_types};
ghost use Rattle.ecma_reader.specs.Raw.{reason_of};

use crate::failure::Failure;
use crate::machine::read_whole;
use crate::reader::Reader;
use ecma_grammar::{Mode, RawError};
use ecma_nodes::only;
use ecma_tree::{NoMemory, Node};
use std::alloc::Global;

/// Reads a text as a module by the grammar alone, in which so many levels are allowed: the tree is raw, since an expression stands where
/// an assignment or a loop has a pattern, and no context rule was asked for. Both places are exact.
#[tactic(auto, using(crate::proofs::Readings::whole))]
pub fn read_raw(alloc: Global, text: &str, mode: Mode, levels: usize) -> Result<Node, RawError>
    requires { length text.now < 2 ^ 32 }
    ensures { Answers result (answer_of (reads_module_with_types text.now mode levels)) }
{
    let mut reader = Reader::new(alloc, text, mode);
    let reading = read_whole(&mut reader, levels);
    let failed = reader.failed();
    match reading {
        Ok(()) => Ok(only(alloc, reader.into_kept())),
        Err(failure) => Err(reason(failure, failed)),
    }
}

/// Why a text was not read, where terminals failed up to this place.
fn reason(failure: Failure, failed: u32) -> RawError
    ensures { result ≡ reason_of failure failed }
{
    match failure {
        Failure::NoMatch => RawError::Syntax { at: failed },
        Failure::TooDeep(at) => RawError::TooDeep { at },
        Failure::NoMemory => RawError::NoMemory,
    }
}
