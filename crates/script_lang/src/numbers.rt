ghost use Rattle.std.specs.Prelude.{◌≡◌, ◌≤◌, IfSome};
ghost use Rattle.script_lang.specs.Entries.{IsCount};
ghost use Rattle.script_lang.specs.Numbers.{block_number_of, count_of, function_of};
ghost use Rattle.script_lang.specs.Numbers.{length_of, number_from_one, number_to, times_of};

use nesc_base::{FnNo, LONGEST_FILE, MOST_IN_REQUEST};
use text_kit::number;

/// How many digits a number has at most.
const MOST_DIGITS: usize = 10;

/// A number of 1 to 10 digits, up to a limit.
fn number_to(most: u64, text: &[u8]) -> Option<u64>
    ensures number { result ≡ number_to most text.now }
    ensures within { IfSome result (λ n. n ≤ most) }
{
    if text.len() > MOST_DIGITS {
        return None;
    }
    let n = number(text)?;
    if n > most { None } else { Some(n) }
}

/// A number of 1 to 10 digits, from 1 to a limit.
fn number_from_one(most: u64, text: &[u8]) -> Option<u64>
    ensures number { result ≡ number_from_one most text.now }
    ensures some { IfSome result (λ n. 1 ≤ n) }
    ensures within { IfSome result (λ n. n ≤ most) }
{
    let n = number_to(most, text)?;
    if n == 0 { None } else { Some(n) }
}

/// How many blocks a file is to have, 0 to 1,048,576.
pub fn length_of(text: &[u8]) -> Option<u32>
    ensures { result ≡ length_of text.now }
{
    Some(number_to(u64::from(LONGEST_FILE), text)? as u32)
}

/// A block of a file, 0 to 1,048,575.
pub fn block_number_of(text: &[u8]) -> Option<u32>
    ensures { result ≡ block_number_of text.now }
{
    Some(number_to(u64::from(LONGEST_FILE) - 1, text)? as u32)
}

/// How many blocks are asked for, 1 to 64.
pub fn count_of(text: &[u8]) -> Option<u32>
    ensures number { result ≡ count_of text.now }
    ensures count { IfSome result IsCount }
{
    Some(number_from_one(u64::from(MOST_IN_REQUEST), text)? as u32)
}

/// One of so many functions.
pub fn function_of(functions: u8, text: &[u8]) -> Option<FnNo>
    ensures { result ≡ function_of functions text.now }
{
    Some(FnNo(number_from_one(u64::from(functions), text)? as u8))
}

/// How often a tick is taken, 1 to 9,999,999,999.
pub fn times_of(text: &[u8]) -> Option<u64>
    ensures number { result ≡ times_of text.now }
    ensures some { IfSome result (λ n. 1 ≤ n) }
    ensures within { IfSome result (λ n. n ≤ 9999999999) }
{
    number_from_one(9_999_999_999, text)
}
