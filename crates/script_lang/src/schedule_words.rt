ghost use Rattle.std.specs.Prelude.{◌≡◌, ◌<◌, ◌≤◌, length, IfSome};
ghost use Rattle.std.specs.List.{position};
ghost use Rattle.script_lang.specs.ScheduleWords.{is_colon, is_served, prune_of, single_of};
ghost use Rattle.script_lang.specs.ScheduleWords.{steps_of, ticks_of, word_said};

use crate::numbers::{block_number_of, function_of, times_of};
use nesc_requests::Word;

/// N of t*N, so many ticks.
fn ticks_of(text: &[u8]) -> Option<(Word, u64)>
    ensures taken { result ≡ ticks_of text.now }
    ensures some { IfSome result (λ taken. 1 ≤ taken.1) }
    ensures within { IfSome result (λ taken. taken.1 ≤ 9999999999) }
{
    Some((Word::T, times_of(text)?))
}

/// Where the first colon of a text stands, counted from 0.
fn colon_of(text: &[u8]) -> Option<usize>
    ensures colon { result ≡ position is_colon text.now }
    ensures within { IfSome result (λ colon. colon < length text.now) }
{
    text.iter().position(|b| *b == b':')
}

/// N of pN, or N:V of pN:V.
fn prune_of(functions: u8, text: &[u8]) -> Option<Word>
    ensures { result ≡ prune_of functions text.now }
{
    let Some(colon) = colon_of(text) else {
        return Some(Word::P(function_of(functions, text)?));
    };
    let f = function_of(functions, &text[..colon])?;
    let v = block_number_of(&text[colon + 1..])?;
    Some(Word::PAt(f, v))
}

/// The word that takes one step on a machine of so many functions.
fn single_of(functions: u8, bytes: &[u8]) -> Option<Word>
    ensures { result ≡ single_of functions bytes.now }
{
    match bytes {
        b"t" => Some(Word::T),
        b"h" => Some(Word::H),
        b"e" => Some(Word::E),
        b"x" => Some(Word::X),
        [b'g', f @ ..] => Some(Word::G(function_of(functions, f)?)),
        [b'i', f @ ..] => Some(Word::I(function_of(functions, f)?)),
        [b'p', rest @ ..] => prune_of(functions, rest),
        _ => None,
    }
}

/// The step that a word stands for, and how often it is taken.
fn word_said(functions: u8, bytes: &[u8]) -> Option<(Word, u64)>
    ensures taken { result ≡ word_said functions bytes.now }
    ensures some { IfSome result (λ taken. 1 ≤ taken.1) }
    ensures within { IfSome result (λ taken. taken.1 ≤ 9999999999) }
{
    if let [b't', b'*', times @ ..] = bytes {
        return ticks_of(times);
    }
    Some((single_of(functions, bytes)?, 1))
}

/// Whether there is a machine that takes the step.
fn is_served(word: Word) -> bool
    ensures { result ≡ is_served word }
{
    !matches!(word, Word::P(_) | Word::PAt(..) | Word::E)
}

/// The step that a word of a schedule stands for, for a machine of so many functions, and how often it is taken: 1 to
/// 9,999,999,999 times. `None` says that it is no word that is served.
pub fn steps_of(functions: u8, bytes: &[u8]) -> Option<(Word, u64)>
    ensures taken { result ≡ steps_of functions bytes.now }
    ensures some { IfSome result (λ taken. 1 ≤ taken.1) }
    ensures within { IfSome result (λ taken. taken.1 ≤ 9999999999) }
{
    let (word, times) = word_said(functions, bytes)?;
    if is_served(word) {
        Some((word, times))
    } else {
        None
    }
}
