ghost use Rattle.std.specs.Prelude.{◌≡◌, ◌≤◌, length, map, OnOk, IfOk};
ghost use Rattle.std.specs.List.{All};
ghost use Rattle.toml.specs.Data.{get_member};
ghost use Rattle.toml.specs.View.{items_view, table_view, view};
ghost use Rattle.script_lang.specs.CommandsText.{guests_of, guests_said, host_said};
ghost use Rattle.script_lang.specs.CommandsText.{items_in, requests_said, strings_of};
ghost use Rattle.script_lang.specs.Entries.{IsGuestEntry, IsHostEntry, command_in, request_in};
ghost use Rattle.script_lang.specs.Kept.{IsFreshGuest, requests_left};
ghost use Rattle.script_lang.specs.Parts.{refusal_of};
ghost use Rattle.script_lang.specs.Reads.{ReadsAs};
ghost use Rattle.script_lang.specs.Stored.{Grows};

use crate::entries::{GuestEntry, HostEntry};
use crate::fault::{InputFault, Unread};
use crate::guest::Guest;
use crate::guest_text::guest_entry_of;
use crate::host_text::host_entry_of;
use crate::machine_text::value_at;
use crate::store::Store;
use std::alloc::Global;
use std::collections::VecDeque;
use toml::{Table, Value};

/// The values of an array, or none of anything else.
fn list_in(value: &Value) -> &[Value]
    ensures { items_view result.now ≡ items_in (Some (view value.now)) }
{
    match value.as_array() {
        Some(values) => values.as_slice(),
        None => &[],
    }
}

/// The values of the array at a key of a table, or none where the key is absent.
pub fn items_at<'a>(table: &'a Table, key: &str) -> &'a [Value]
    ensures { items_view result.now ≡ items_in (get_member key.now (table_view table.now)) }
{
    match value_at(table, key) {
        Some(value) => list_in(value),
        None => &[],
    }
}

/// Why a text is refused that has a string which is not read, by whose string it is and which of them.
fn refusal_of(unread: Unread, actor: u8, index: u32) -> InputFault
    ensures { result ≡ refusal_of unread actor index }
{
    match unread {
        Unread::NoMemory => InputFault::NoMemory,
        Unread::Bad => InputFault::BadCommand { actor, index },
    }
}

/// The commands of the host that an array of strings says, for a machine of so many functions. What they write is put
/// behind the blocks of the store.
pub fn read_host(
    alloc: Global,
    functions: u8,
    store: &mut Store,
    values: &[Value],
) -> Result<VecDeque<HostEntry>, InputFault>
    ensures read { ReadsAs (λ entries. map (command_in store.new) entries.items) result
        (host_said functions (strings_of (items_view values.now))) }
    ensures kept { IfOk result (λ entries. All (IsHostEntry (length store.new)) entries.items) }
    ensures grows { OnOk result (Grows store.old store.new) }
{
    let mut entries = VecDeque::new(alloc);
    let mut index = 0u32;
    for value in values {
        let Some(text) = value.as_str() else { continue };
        index = index.checked_add(1).ok_or(InputFault::NoMemory)?;
        match host_entry_of(alloc, functions, store, text.as_bytes()) {
            Ok(entry) => entries.push_back(entry)?,
            Err(unread) => return Err(refusal_of(unread, 0, index)),
        }
    }
    Ok(entries)
}

/// The requests of the guest of a function that an array of strings says. What they write is put behind the blocks of
/// the store.
fn read_requests(
    alloc: Global,
    f: u8,
    store: &mut Store,
    values: &[Value],
) -> Result<VecDeque<GuestEntry>, InputFault>
    ensures read { ReadsAs (λ entries. map (request_in store.new) entries.items) result
        (requests_said f (strings_of (items_view values.now))) }
    ensures kept { IfOk result (λ entries. All (IsGuestEntry (length store.new)) entries.items) }
    ensures grows { OnOk result (Grows store.old store.new) }
{
    let mut entries = VecDeque::new(alloc);
    let mut index = 0u32;
    for value in values {
        let Some(text) = value.as_str() else { continue };
        index = index.checked_add(1).ok_or(InputFault::NoMemory)?;
        match guest_entry_of(alloc, store, text.as_bytes()) {
            Ok(entry) => entries.push_back(entry)?,
            Err(unread) => return Err(refusal_of(unread, f, index)),
        }
    }
    Ok(entries)
}

/// The guests of an array of arrays of strings, of which nothing was taken. What they write is put behind the blocks of
/// the store.
pub fn read_guests(
    alloc: Global,
    store: &mut Store,
    values: &[Value],
) -> Result<Vec<Guest>, InputFault>
    requires few { length values.now ≤ 255 }
    ensures read { ReadsAs (λ guests. map (requests_left store.new) guests.items) result
        (guests_said 1 (guests_of (items_view values.now))) }
    ensures fresh { IfOk result (λ guests. All (IsFreshGuest (length store.new)) guests.items) }
    ensures count { IfOk result (λ guests. length guests.items ≡ length values.now) }
    ensures grows { OnOk result (Grows store.old store.new) }
{
    let mut guests = Vec::new(alloc);
    let mut f = 0;
    for value in values {
        f += 1;
        let entries = read_requests(alloc, f, store, list_in(value))?;
        guests.push(Guest::new(entries))?;
    }
    Ok(guests)
}
