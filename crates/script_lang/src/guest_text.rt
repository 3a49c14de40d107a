ghost use Rattle.std.specs.Prelude.{◌≡◌, [], length, map, option_map, IfOk, IfSome, OnOk};
ghost use Rattle.script_lang.specs.Entries.{IsGuestEntry, IsUnwrittenRequest, request_in};
ghost use Rattle.script_lang.specs.GuestText.{flush_of, read_of, request_of, request_of_words, unwritten_of, write_of};
ghost use Rattle.script_lang.specs.Parts.{Says};
ghost use Rattle.script_lang.specs.Stored.{Grows};

use crate::entries::GuestEntry;
use crate::fault::Unread;
use crate::runs::{asked_run_of, written_run_of};
use crate::store::Store;
use crate::strings::{is_trimmed, words_of};
use std::alloc::Global;

/// r V N
fn read_of(words: &[&[u8]]) -> Option<GuestEntry>
    ensures read { option_map (request_in []) result ≡ read_of (map (λ word. word.now) words.now) }
    ensures unwritten { IfSome result IsUnwrittenRequest }
{
    let (v, n) = asked_run_of(words)?;
    Some(GuestEntry::Read { v, n })
}

/// f
fn flush_of(words: &[&[u8]]) -> Option<GuestEntry>
    ensures read { option_map (request_in []) result ≡ flush_of (map (λ word. word.now) words.now) }
    ensures unwritten { IfSome result IsUnwrittenRequest }
{
    let [] = words else { return None };
    Some(GuestEntry::Flush)
}

/// w V BLOCK..
fn write_of(store: &mut Store, words: &[&[u8]]) -> Result<GuestEntry, Unread>
    ensures read { Says (request_in store.new) result (write_of (map (λ word. word.now) words.now)) }
    ensures kept { IfOk result (IsGuestEntry (length store.new)) }
    ensures grows { OnOk result (Grows store.old store.new) }
{
    let run = written_run_of(store, words)?;
    Ok(GuestEntry::Write { run })
}

/// The request of a first word and those behind it, if it writes no blocks.
fn unwritten_of(first: &[u8], words: &[&[u8]]) -> Option<GuestEntry>
    ensures read { option_map (request_in []) result ≡ unwritten_of first.now (map (λ word. word.now) words.now) }
    ensures unwritten { IfSome result IsUnwrittenRequest }
{
    if first == b"r".as_slice() {
        read_of(words)
    } else if first == b"f".as_slice() {
        flush_of(words)
    } else {
        None
    }
}

/// The request of some words.
fn request_of_words(store: &mut Store, words: &[&[u8]]) -> Result<GuestEntry, Unread>
    ensures read { Says (request_in store.new) result (request_of_words (map (λ word. word.now) words.now)) }
    ensures kept { IfOk result (IsGuestEntry (length store.new)) }
    ensures grows { OnOk result (Grows store.old store.new) }
{
    let Some((first, words)) = words.split_first() else {
        return Err(Unread::Bad);
    };
    if *first == b"w".as_slice() {
        return write_of(store, words);
    }
    unwritten_of(first, words).ok_or(Unread::Bad)
}

/// The request that a string is. What it writes is put behind the blocks of the store.
pub fn guest_entry_of(alloc: Global, store: &mut Store, text: &[u8]) -> Result<GuestEntry, Unread>
    ensures read { Says (request_in store.new) result (request_of text.now) }
    ensures kept { IfOk result (IsGuestEntry (length store.new)) }
    ensures grows { OnOk result (Grows store.old store.new) }
{
    if !is_trimmed(text) {
        return Err(Unread::Bad);
    }
    let words = words_of(alloc, text)?;
    request_of_words(store, words.as_slice())
}
