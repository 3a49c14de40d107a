ghost use Rattle.std.specs.Prelude.{◌≡◌, ◌≤◌, codes, option_map, IfOk};
ghost use Rattle.toml.specs.Data.{get_member};
ghost use Rattle.toml.specs.View.{table_view, view};
ghost use Rattle.nesc_requests.specs.Machine.{IsMachine};
ghost use Rattle.script_lang.specs.CommandsText.{table_in};
ghost use Rattle.script_lang.specs.MachineText.{between, machine_of, machine_said, number_at};
ghost use Rattle.script_lang.specs.Reads.{Reads};

use crate::fault::{InputFault, Limit};
use crate::keys::Level;
use nesc_requests::Machine;
use toml::{Table, Value};

/// How many functions a machine has at most.
const MOST_FUNCTIONS: u16 = Machine::MOST_FUNCTIONS as u16;

/// How many requests wait for one function at most.
const MOST_QUEUED: u16 = Machine::MOST_QUEUED as u16;

/// How few nodes of trees there are.
const FEWEST_NODES: u16 = Machine::FEWEST_NODES;

/// How many nodes of trees there are at most.
const MOST_NODES: u16 = Machine::MOST_NODES;

/// How many translations the cache has at most.
const MOST_TRANSLATIONS: u16 = Machine::MOST_TRANSLATIONS as u16;

/// The value at a key of a table.
pub fn value_at<'a>(table: &'a Table, key: &str) -> Option<&'a Value>
    ensures { option_map (λ value. view value.now) result ≡ get_member key.now (table_view table.now) }
{
    table.get(key)
}

/// The number at a key of a table, or another where the key is absent.
fn number_at(table: &Table, key: &str, other: u16) -> i64
    ensures { result ≡ number_at key.now other (table_view table.now) }
{
    match value_at(table, key) {
        Some(value) => value.as_integer().unwrap_or(i64::from(other)),
        None => i64::from(other),
    }
}

/// The number, if it is one of these.
fn between(limit: Limit, least: u16, most: u16, n: i64) -> Result<u16, InputFault>
    ensures number { result ≡ between limit least most n }
    ensures some { IfOk result (λ k. least ≤ k) }
    ensures few { IfOk result (λ k. k ≤ most) }
{
    match u16::try_from(n) {
        Ok(k) if least <= k && k <= most => Ok(k),
        _ => Err(InputFault::OverLimit { limit, count: n }),
    }
}

/// The four numbers of a machine, each within its limits.
fn machine_of(numbers: &Table) -> Result<Machine, InputFault>
    ensures machine { result ≡ machine_of (table_view numbers.now) }
    ensures within { IfOk result IsMachine }
{
    let other = Machine::DEFAULT;
    let functions = number_at(numbers, "functions", u16::from(other.functions));
    let functions = between(Limit::Functions, 1, MOST_FUNCTIONS, functions)?;
    let queue = number_at(numbers, "queue", u16::from(other.queue));
    let queue = between(Limit::Queue, 1, MOST_QUEUED, queue)?;
    let pool = number_at(numbers, "pool", other.pool);
    let pool = between(Limit::Pool, FEWEST_NODES, MOST_NODES, pool)?;
    let btlb = number_at(numbers, "btlb", u16::from(other.btlb));
    let btlb = between(Limit::Btlb, 1, MOST_TRANSLATIONS, btlb)?;
    Ok(Machine {
        functions: functions as u8,
        queue: queue as u8,
        pool,
        btlb: btlb as u8,
    })
}

/// The machine of a commands file, whose keys are judged first.
pub fn machine_in(top: &Table) -> Result<Machine, InputFault>
    ensures read { Reads result (machine_said (table_in (get_member (codes "machine") (table_view top.now)))) }
    ensures within { IfOk result IsMachine }
{
    let Some(value) = value_at(top, "machine") else {
        return Ok(Machine::DEFAULT);
    };
    let Some(numbers) = value.as_table() else {
        return Ok(Machine::DEFAULT);
    };
    Level::Machine.judge(numbers)?;
    machine_of(numbers)
}
