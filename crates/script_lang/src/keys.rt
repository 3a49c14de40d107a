ghost use Rattle.std.specs.Prelude.{◌≡◌};
ghost use Rattle.toml.specs.View.{items_view, table_view, view};
ghost use Rattle.script_lang.specs.Keys.{all_items, bad_key, is_key, is_list_of_guests, is_list_of_strings};
ghost use Rattle.script_lang.specs.Keys.{is_machine_key, is_string, is_top_key, table_number};
ghost use Rattle.script_lang.specs.Reads.{ReadsAs, unless};

use crate::fault::InputFault;
use toml::{Table, Value};

/// The tables of a commands file.
#[derive(Clone, Copy)]
pub enum Level {
    /// The document itself.
    Top,
    /// The table `machine`.
    Machine,
}

impl Level {
    /// The number of the table.
    fn number(self) -> u8
        ensures { result ≡ table_number self }
    {
        match self {
            Level::Top => 0,
            Level::Machine => 1,
        }
    }

    /// Whether the table may have this key with this value.
    fn has(self, key: &str, value: &Value) -> bool
        ensures { result ≡ is_key self key.now (view value.now) }
    {
        match self {
            Level::Top => is_top_key(key, value),
            Level::Machine => is_machine_key(key, value),
        }
    }

    /// Judges the keys of a table. The first that it may not have is refused, by its place in the order of bytes.
    pub fn judge(self, table: &Table) -> Result<(), InputFault>
        ensures { ReadsAs
            (λ _. table_view table.now) result (unless (bad_key self (table_view table.now)) (table_view table.now)) }
    {
        let mut place = 0u32;
        for (key, value) in table.iter() {
            place = place.checked_add(1).ok_or(InputFault::NoMemory)?;
            if !self.has(key.as_str(), value) {
                return Err(InputFault::BadKey {
                    table: self.number(),
                    place,
                });
            }
        }
        Ok(())
    }
}

/// Whether all values are strings.
fn are_strings(values: &[Value]) -> bool
    ensures { result ≡ all_items is_string (items_view values.now) }
{
    for value in values {
        if !value.is_str() {
            return false;
        }
    }
    true
}

fn is_list_of_strings(value: &Value) -> bool
    ensures { result ≡ is_list_of_strings (view value.now) }
{
    match value.as_array() {
        Some(values) => are_strings(values.as_slice()),
        None => false,
    }
}

/// Whether all values are arrays of strings.
fn are_lists(values: &[Value]) -> bool
    ensures { result ≡ all_items is_list_of_strings (items_view values.now) }
{
    for value in values {
        if !is_list_of_strings(value) {
            return false;
        }
    }
    true
}

fn is_list_of_guests(value: &Value) -> bool
    ensures { result ≡ is_list_of_guests (view value.now) }
{
    match value.as_array() {
        Some(values) => are_lists(values.as_slice()),
        None => false,
    }
}

fn is_top_key(key: &str, value: &Value) -> bool
    ensures { result ≡ is_top_key key.now (view value.now) }
{
    if key == "machine" {
        value.is_table()
    } else if key == "host" {
        is_list_of_strings(value)
    } else if key == "guest" {
        is_list_of_guests(value)
    } else {
        false
    }
}

fn is_machine_key(key: &str, value: &Value) -> bool
    ensures { result ≡ is_machine_key key.now (view value.now) }
{
    if key == "functions" {
        value.is_integer()
    } else if key == "queue" {
        value.is_integer()
    } else if key == "pool" {
        value.is_integer()
    } else if key == "btlb" {
        value.is_integer()
    } else {
        false
    }
}
