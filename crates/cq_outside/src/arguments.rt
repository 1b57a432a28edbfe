//! The words of a command.
ghost use Rattle.std.specs.Prelude.{map, IfOk, OnErr};
ghost use Rattle.std.specs.String.{string_bytes};
ghost use Rattle.cq_outside.specs.Words.{Given, AreWordsOf, MayWantMemory};

use crate::system::{Words, WordsFault};
use cq_common::NoMemory;

/// The words after the program's name. The result is empty if a word is not UTF-8. No program takes such words, nor an empty list.
///
/// # Errors
///
/// Returns `NoMemory` if memory runs out.
pub fn command_words<W: Words + AllocGlobal>(rt: &W) -> Result<Vec<String>, NoMemory>
    ensures words { IfOk result (λ words. (given : Given) × W.gave given × AreWordsOf (map string_bytes words.items) given) }
    ensures memory { OnErr result ((given : Given) × W.gave given × MayWantMemory given) }
{
    let mut words = Vec::new(rt.alloc());
    let mut given = match rt.words_once() {
        Ok(given) => given,
        Err(WordsFault::NoText) => return Ok(words),
        Err(WordsFault::NoMemory) => return Err(NoMemory),
    };
    let _name = given.next();
    while let Some(word) = given.next() {
        words.push(word)?;
    }
    Ok(words)
}
