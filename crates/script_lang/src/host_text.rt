ghost use Rattle.std.specs.Prelude.{◌≡◌, [], length, map, option_map, IfOk, IfSome, OnOk};
ghost use Rattle.script_lang.specs.Entries.{IsHostEntry, IsUnwritten, command_in};
ghost use Rattle.script_lang.specs.HostText.{attach_of, command_of_words, create_of, delete_of};
ghost use Rattle.script_lang.specs.HostText.{detach_of, get_of, host_command_of, map_of, put_of};
ghost use Rattle.script_lang.specs.HostText.{regs_of, resize_of, sync_of, unwritten_of};
ghost use Rattle.script_lang.specs.Parts.{Says};
ghost use Rattle.script_lang.specs.Stored.{Grows};

use crate::entries::HostEntry;
use crate::fault::Unread;
use crate::numbers::{function_of, length_of};
use crate::runs::{asked_run_of, written_run_of};
use crate::store::Store;
use crate::strings::{is_trimmed, words_of};
use nesc_base::Name;
use std::alloc::Global;

/// create NAME LENGTH
fn create_of(words: &[&[u8]]) -> Option<HostEntry>
    ensures read { option_map (command_in []) result ≡ create_of (map (λ word. word.now) words.now) }
    ensures unwritten { IfSome result IsUnwritten }
{
    let [name, length] = words else { return None };
    let name = Name::read(name)?;
    let length = length_of(length)?;
    Some(HostEntry::Create { name, length })
}

/// delete NAME
fn delete_of(words: &[&[u8]]) -> Option<HostEntry>
    ensures read { option_map (command_in []) result ≡ delete_of (map (λ word. word.now) words.now) }
    ensures unwritten { IfSome result IsUnwritten }
{
    let [name] = words else { return None };
    let name = Name::read(name)?;
    Some(HostEntry::Delete { name })
}

/// resize NAME LENGTH
fn resize_of(words: &[&[u8]]) -> Option<HostEntry>
    ensures read { option_map (command_in []) result ≡ resize_of (map (λ word. word.now) words.now) }
    ensures unwritten { IfSome result IsUnwritten }
{
    let [name, length] = words else { return None };
    let name = Name::read(name)?;
    let length = length_of(length)?;
    Some(HostEntry::Resize { name, length })
}

/// put NAME V BLOCK..
fn put_of(store: &mut Store, words: &[&[u8]]) -> Result<HostEntry, Unread>
    ensures read { Says (command_in store.new) result (put_of (map (λ word. word.now) words.now)) }
    ensures kept { IfOk result (IsHostEntry (length store.new)) }
    ensures grows { OnOk result (Grows store.old store.new) }
{
    let [name, words @ ..] = words else {
        return Err(Unread::Bad);
    };
    let name = Name::read(name).ok_or(Unread::Bad)?;
    let run = written_run_of(store, words)?;
    Ok(HostEntry::Put { name, run })
}

/// map NAME V N
fn map_of(words: &[&[u8]]) -> Option<HostEntry>
    ensures read { option_map (command_in []) result ≡ map_of (map (λ word. word.now) words.now) }
    ensures unwritten { IfSome result IsUnwritten }
{
    let [name, words @ ..] = words else {
        return None
    };
    let name = Name::read(name)?;
    let (v, n) = asked_run_of(words)?;
    Some(HostEntry::Map { name, v, n })
}

/// get NAME V N
fn get_of(words: &[&[u8]]) -> Option<HostEntry>
    ensures read { option_map (command_in []) result ≡ get_of (map (λ word. word.now) words.now) }
    ensures unwritten { IfSome result IsUnwritten }
{
    let [name, words @ ..] = words else {
        return None
    };
    let name = Name::read(name)?;
    let (v, n) = asked_run_of(words)?;
    Some(HostEntry::Get { name, v, n })
}

/// attach F NAME
fn attach_of(functions: u8, words: &[&[u8]]) -> Option<HostEntry>
    ensures read { option_map (command_in []) result ≡ attach_of functions (map (λ word. word.now) words.now) }
    ensures unwritten { IfSome result IsUnwritten }
{
    let [f, name] = words else { return None };
    let f = function_of(functions, f)?;
    let name = Name::read(name)?;
    Some(HostEntry::Attach { f, name })
}

/// detach F
fn detach_of(functions: u8, words: &[&[u8]]) -> Option<HostEntry>
    ensures read { option_map (command_in []) result ≡ detach_of functions (map (λ word. word.now) words.now) }
    ensures unwritten { IfSome result IsUnwritten }
{
    let [f] = words else { return None };
    let f = function_of(functions, f)?;
    Some(HostEntry::Detach { f })
}

/// sync
fn sync_of(words: &[&[u8]]) -> Option<HostEntry>
    ensures read { option_map (command_in []) result ≡ sync_of (map (λ word. word.now) words.now) }
    ensures unwritten { IfSome result IsUnwritten }
{
    let [] = words else { return None };
    Some(HostEntry::Sync)
}

/// regs F
fn regs_of(functions: u8, words: &[&[u8]]) -> Option<HostEntry>
    ensures read { option_map (command_in []) result ≡ regs_of functions (map (λ word. word.now) words.now) }
    ensures unwritten { IfSome result IsUnwritten }
{
    let [f] = words else { return None };
    let f = function_of(functions, f)?;
    Some(HostEntry::Regs { f })
}

/// The command of a first word and those behind it, if it writes no blocks.
fn unwritten_of(functions: u8, first: &[u8], words: &[&[u8]]) -> Option<HostEntry>
    ensures read { option_map (command_in []) result ≡ unwritten_of functions first.now
        (map (λ word. word.now) words.now) }
    ensures unwritten { IfSome result IsUnwritten }
{
    if first == b"create".as_slice() {
        create_of(words)
    } else if first == b"delete".as_slice() {
        delete_of(words)
    } else if first == b"resize".as_slice() {
        resize_of(words)
    } else if first == b"map".as_slice() {
        map_of(words)
    } else if first == b"get".as_slice() {
        get_of(words)
    } else if first == b"attach".as_slice() {
        attach_of(functions, words)
    } else if first == b"detach".as_slice() {
        detach_of(functions, words)
    } else if first == b"sync".as_slice() {
        sync_of(words)
    } else if first == b"regs".as_slice() {
        regs_of(functions, words)
    } else {
        None
    }
}

/// The command of some words, for a machine of so many functions.
fn command_of_words(functions: u8, store: &mut Store, words: &[&[u8]]) -> Result<HostEntry, Unread>
    ensures read { Says (command_in store.new) result (command_of_words functions (map (λ word. word.now) words.now)) }
    ensures kept { IfOk result (IsHostEntry (length store.new)) }
    ensures grows { OnOk result (Grows store.old store.new) }
{
    let Some((first, words)) = words.split_first() else {
        return Err(Unread::Bad);
    };
    if *first == b"put".as_slice() {
        return put_of(store, words);
    }
    unwritten_of(functions, first, words).ok_or(Unread::Bad)
}

/// The command that a string is, for a machine of so many functions. What it writes is put behind the blocks of the
/// store.
pub fn host_entry_of(
    alloc: Global,
    functions: u8,
    store: &mut Store,
    text: &[u8],
) -> Result<HostEntry, Unread>
    ensures read { Says (command_in store.new) result (host_command_of functions text.now) }
    ensures kept { IfOk result (IsHostEntry (length store.new)) }
    ensures grows { OnOk result (Grows store.old store.new) }
{
    if !is_trimmed(text) {
        return Err(Unread::Bad);
    }
    let words = words_of(alloc, text)?;
    command_of_words(functions, store, words.as_slice())
}
