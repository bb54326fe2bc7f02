//! The words after the program's name.
use std::alloc::{AllocError, Global};
use std::env::{Env, FillError};
use std::rc::RcStr;

/// What is passed for a word that is no text: no word that is known.
const NO_TEXT: &str = "\u{FFFD}";

/// The words after the program's name, in their order; a word that is no text is `\u{FFFD}`, which names nothing. Want of memory alone is an error.
pub fn words(rt: &impl Env, alloc: Global) -> Result<Vec<RcStr>, AllocError> {
    let mut words = Vec::new(alloc);
    for index in 1..usize::MAX {
        match word(rt, alloc, index)? {
            Some(word) => words.push(word)?,
            None => return Ok(words),
        }
    }
    Ok(words)
}

/// The word at an index, the program's name being at 0; none after the last.
/// A buffer that was too short is tried again at twice its size.
fn word(rt: &impl Env, alloc: Global, index: usize) -> Result<Option<RcStr>, AllocError> {
    for bits in 8u32..40 {
        let mut buffer = vec![in alloc; 0u8; 1usize << bits]?;
        match rt.arg(index, &mut buffer) {
            Ok(length) => return Ok(Some(text(alloc, &buffer[..length])?)),
            Err(FillError::NotPresent) => return Ok(None),
            Err(FillError::TooLong) => {}
        }
    }
    Err(AllocError)
}

fn text(alloc: Global, bytes: &[u8]) -> Result<RcStr, AllocError> {
    match str::from_utf8(bytes) {
        Ok(text) => RcStr::from_str(alloc, text),
        Err(_) => RcStr::from_str(alloc, NO_TEXT),
    }
}
