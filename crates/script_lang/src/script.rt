ghost use Rattle.std.specs.Prelude.{◌≡◌, ◌≤◌, None, false, length, map, replicate, IfErr, IfOk, OnOk};
ghost use Rattle.std.specs.List.{All, sum_by};
ghost use Rattle.toml.specs.Data.{get_member};
ghost use Rattle.toml.specs.View.{items_view, table_view};
ghost use Rattle.nesc_requests.specs.Machine.{IsMachine};
ghost use Rattle.script_lang.specs.CommandsText.{blocks_in_all, commands_of, commands_said, few_blocks};
ghost use Rattle.script_lang.specs.CommandsText.{few_guests, guests_of, script_of, strings_said};
ghost use Rattle.script_lang.specs.Entries.{guest_entry_blocks, host_entry_blocks};
ghost use Rattle.script_lang.specs.Kept.{AddsIdle, IsGuest, IsHostKept, out_in, script_in};
ghost use Rattle.script_lang.specs.Left.{untouched};
ghost use Rattle.script_lang.specs.Limits.{most_blocks, most_bytes};
ghost use Rattle.script_lang.specs.Reads.{ReadsAs};
ghost use Rattle.script_lang.specs.declared.fault.InputFault.TheVariants as refusal;

use crate::commands::Commands;
use crate::entries::{GuestEntry, HostEntry};
use crate::fault::{InputFault, Limit};
use crate::guest::Guest;
use crate::keys::Level;
use crate::machine_text::machine_in;
use crate::reading::{items_at, read_guests, read_host};
use crate::schedule::MOST_BYTES;
use crate::store::Store;
use nesc_base::NoMemory;
use nesc_requests::Machine;
use std::alloc::Global;
use std::collections::VecDeque;
use toml::{Table, Value};

/// How many blocks the commands and requests of a text may have, all together.
const MOST_NAMED_BLOCKS: u64 = 262_144;

/// A guest for each function, those that are not named with no requests.
fn with_idle(alloc: Global, functions: u8, named: Vec<Guest>) -> Result<Vec<Guest>, NoMemory>
    requires { length named.items ≤ functions }
    ensures { IfOk result (λ all. AddsIdle functions named.items all.items) }
{
    let mut guests = named;
    for _ in guests.len()..usize::from(functions) {
        guests.push(Guest::new(VecDeque::new(alloc)))?;
    }
    Ok(guests)
}

/// How many blocks the commands of the host have. An `Err` says that no number of 64 bits counts them.
fn blocks_of_host(entries: &VecDeque<HostEntry>) -> Result<u64, NoMemory>
    ensures { IfOk result (λ blocks. blocks ≡ sum_by host_entry_blocks entries.now.items) }
{
    let mut blocks = 0u64;
    for entry in entries.iter() {
        blocks = blocks
            .checked_add(u64::from(entry.blocks()))
            .ok_or(NoMemory)?;
    }
    Ok(blocks)
}

/// How many blocks the requests of one guest have.
fn blocks_of_guest(entries: &VecDeque<GuestEntry>) -> Result<u64, NoMemory>
    ensures { IfOk result (λ blocks. blocks ≡ sum_by guest_entry_blocks entries.now.items) }
{
    let mut blocks = 0u64;
    for entry in entries.iter() {
        blocks = blocks
            .checked_add(u64::from(entry.blocks()))
            .ok_or(NoMemory)?;
    }
    Ok(blocks)
}

/// How many blocks the requests of all guests have.
fn blocks_of_guests(guests: &[Guest]) -> Result<u64, NoMemory>
    ensures { IfOk result (λ blocks.
        blocks ≡ sum_by (λ guest. sum_by guest_entry_blocks guest.entries.items) guests.now) }
{
    let mut blocks = 0u64;
    for guest in guests {
        blocks = blocks
            .checked_add(blocks_of_guest(&guest.entries)?)
            .ok_or(NoMemory)?;
    }
    Ok(blocks)
}

/// Refuses so many blocks, if they are too many.
fn few_blocks(blocks: u64) -> Result<(), InputFault>
    ensures { ReadsAs (λ _. blocks) result (few_blocks blocks) }
{
    if blocks <= MOST_NAMED_BLOCKS {
        return Ok(());
    }
    let count = i64::try_from(blocks).ok().ok_or(InputFault::NoMemory)?;
    Err(InputFault::OverLimit {
        limit: Limit::Blocks,
        count,
    })
}

/// Refuses more guests than there are functions.
#[tactic(auto, using(crate::proofs::GuestLemmas::guest_count))]
fn few_guests(functions: u8, named: &[Value]) -> Result<(), InputFault>
    ensures few { OnOk result (length named.now ≤ functions) }
    ensures read { ReadsAs
        (λ _. guests_of (items_view named.now)) result (few_guests functions (guests_of (items_view named.now))) }
{
    if named.len() <= usize::from(functions) {
        return Ok(());
    }
    let count = i64::try_from(named.len()).ok().ok_or(InputFault::NoMemory)?;
    Err(InputFault::OverLimit {
        limit: Limit::Guests,
        count,
    })
}

/// What is kept of the commands and requests of a text.
#[derive(Drop)]
struct Parts {
    store: Store,
    host: VecDeque<HostEntry>,
    guests: Vec<Guest>,
}

/// The commands and requests of a text for a machine, however many blocks they have.
fn read_parts(alloc: Global, machine: Machine, top: &Table) -> Result<Parts, InputFault>
    ensures read { ReadsAs (λ parts. script_in machine parts.store parts.host.items parts.guests.items) result
        (strings_said machine (table_view top.now)) }
    ensures host { IfOk result (λ parts. All (IsHostKept machine.functions parts.store) parts.host.items) }
    ensures guests { IfOk result (λ parts. All (IsGuest parts.store) parts.guests.items) }
    ensures none { IfOk result (λ parts. All (λ guest. guest.back ≡ None) parts.guests.items) }
    ensures fresh { IfOk result (λ parts. map out_in parts.guests.items ≡ replicate machine.functions false) }
    ensures count { IfOk result (λ parts. length parts.guests.items ≡ machine.functions) }
{
    let named = items_at(top, "guest");
    few_guests(machine.functions, named)?;
    let mut store = Store::new(alloc);
    let strings = items_at(top, "host");
    let host = read_host(alloc, machine.functions, &mut store, strings)?;
    let guests = read_guests(alloc, &mut store, named)?;
    let guests = with_idle(alloc, machine.functions, guests)?;
    Ok(Parts {
        store,
        host,
        guests,
    })
}

/// The commands and requests of a text for a machine, if they do not have too many blocks.
fn read_said(alloc: Global, machine: Machine, top: &Table) -> Result<Commands, InputFault>
    requires { IsMachine machine }
    ensures read { ReadsAs (λ commands. commands.script) result (commands_said machine (table_view top.now)) }
    ensures untouched { IfOk result (λ commands. commands ≡ untouched commands.script) }
    ensures machine { IfOk result (λ commands. commands.script.machine ≡ machine) }
    ensures blocks { IfOk result (λ commands. blocks_in_all commands.script ≤ most_blocks) }
{
    let parts = read_parts(alloc, machine, top)?;
    let host = blocks_of_host(&parts.host)?;
    let guests = blocks_of_guests(&parts.guests)?;
    let all = host.checked_add(guests).ok_or(InputFault::NoMemory)?;
    few_blocks(all)?;
    Ok(Commands::new(machine, parts.store, parts.host, parts.guests))
}

/// What the keys and values of a document say.
#[tactic(auto, unfolding(crate::specs::CommandsText::script_of))]
fn read_document(alloc: Global, top: &Table) -> Result<Commands, InputFault>
    ensures read { ReadsAs (λ commands. commands.script) result (script_of (table_view top.now)) }
    ensures untouched { IfOk result (λ commands. commands ≡ untouched commands.script) }
    ensures machine { IfOk result (λ commands. IsMachine commands.script.machine) }
    ensures blocks { IfOk result (λ commands. blocks_in_all commands.script ≤ most_blocks) }
{
    Level::Top.judge(top)?;
    let machine = machine_in(top)?;
    read_said(alloc, machine, top)
}

/// Reads a commands file.
///
/// It is refused by the first of these that applies: `OverLimit` with `Text` and 16,777,217, where it has more than
/// 16,777,216 bytes; `BadToml`; `BadKey`, the top level before `machine`; `OverLimit` with `Functions`, `Queue`, `Pool`
/// or `Btlb` and the number; with `Guests` and how many are named; `BadCommand`, the host's strings before those of
/// guests 1, 2, ..; and `OverLimit` with `Blocks` and how many there are. `NoMemory` may come in place of each but the
/// first.
pub fn read_commands(alloc: Global, text: &[u8]) -> Result<Commands, InputFault>
    ensures read { ReadsAs (λ commands. commands.script) result (commands_of text.now) }
    ensures memory { IfErr result (λ fault. fault ≡ refusal.NoMemory → length text.now ≤ most_bytes) }
    ensures untouched { IfOk result (λ commands. commands ≡ untouched commands.script) }
    ensures machine { IfOk result (λ commands. IsMachine commands.script.machine) }
    ensures few { IfOk result (λ commands. commands.kept ≤ commands.script.machine.functions) }
    ensures blocks { IfOk result (λ commands. blocks_in_all commands.script ≤ most_blocks) }
{
    if text.len() > MOST_BYTES {
        return Err(InputFault::OverLimit {
            limit: Limit::Text,
            count: MOST_BYTES as i64 + 1,
        });
    }
    match toml::table_from_slice(alloc, text) {
        Ok(table) => read_document(alloc, &table),
        Err(fault) if fault.is_memory() => Err(InputFault::NoMemory),
        Err(_) => Err(InputFault::BadToml),
    }
}
