ghost use Rattle.std.specs.Prelude.{◌≡◌, map, IfOk, IfErr};
ghost use Rattle.script_lang.specs.Words.{is_trimmed, words_of};
ghost use Rattle.script_lang.specs.declared.fault.Unread.TheVariants.{NoMemory};

use crate::fault::Unread;
use crate::words::{Separators, next_word};
use std::alloc::Global;

/// The words of a string.
pub fn words_of<'a>(alloc: Global, text: &'a [u8]) -> Result<Vec<&'a [u8]>, Unread>
    ensures words { IfOk result (λ words. map (λ word. word.now) words.items ≡ words_of text.now) }
    ensures memory { IfErr result (λ fault. fault ≡ NoMemory) }
{
    let mut words = Vec::new(alloc);
    let mut left = text;
    while let Some((_, word, behind)) = next_word(Separators::Spaces, left) {
        words.push(word)?;
        left = behind;
    }
    Ok(words)
}

/// Whether no space stands in front of the text or behind it.
pub fn is_trimmed(text: &[u8]) -> bool
    ensures { result ≡ is_trimmed text.now }
{
    text.first() != Some(&b' ') && text.last() != Some(&b' ')
}
