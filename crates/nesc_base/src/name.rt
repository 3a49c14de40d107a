ghost use Rattle.std.specs.Prelude.{◌≡◌, ◌≤◌, ◌-◌, ◌++◌, IsTrue, length, replicate};
ghost use Rattle.std.specs.List.{list_all};
ghost use Rattle.nesc_base.specs.Name.{is_name, is_name_byte, longest_name, name_of};

use std::marker::Model;

/// How many bytes a name has at most.
pub const LONGEST_NAME: usize = 24;

/// A file's name: 1 to 24 bytes, each of them one of a-z, 0-9, `_`, `-` and `.`.
#[derive(Clone, Copy, Debug)]
pub struct Name {
    bytes: [u8; LONGEST_NAME],
    len: usize,
}

impl Model for Name {
    ghost use Rattle.std.specs.Prelude.{◌≡◌, ◌≤◌, ◌-◌, ◌++◌, IsTrue, List, ℕ, drop, length, replicate, take};
    ghost use Rattle.nesc_base.specs.Name.{is_name, longest_name};
    ghost use Rattle.nesc_base.specs.NameFields.{counted_back, padded_back};

    ghost Value = { List ℕ };

    ghost view = { λ name. take name.len name.bytes };

    ghost inverse = { λ bytes.
        record { bytes = bytes ++ replicate (longest_name - length bytes) 0; len = length bytes } };

    ghost inverse_ok = { λ name kept i. record {
      bytes = padded_back name.bytes name.len kept.1 kept.2 i;
      len = counted_back name.bytes name.len kept.1 i;
    } };

    // Zeros fill the rest, so that a name's bytes say all of it.
    ghost invariant = { λ name. (name.len ≤ longest_name) × (name.len ≤ length name.bytes)
        × (drop name.len name.bytes ≡ replicate (longest_name - name.len) 0)
        × IsTrue (is_name (take name.len name.bytes)) };
}

fn is_name_byte(b: u8) -> bool
    ensures { result ≡ is_name_byte b }
{
    matches!(b, b'a'..=b'z' | b'0'..=b'9' | b'_' | b'-' | b'.')
}

fn are_name_bytes(bytes: &[u8]) -> bool
    ensures { result ≡ list_all is_name_byte bytes.now }
{
    bytes.iter().all(|b| is_name_byte(*b))
}

fn is_name(bytes: &[u8]) -> bool
    ensures { result ≡ is_name bytes.now }
{
    1 <= bytes.len() && bytes.len() <= LONGEST_NAME && are_name_bytes(bytes)
}

// The bytes, with zeros behind them.
fn padded(bytes: &[u8]) -> [u8; LONGEST_NAME]
    requires { length bytes.now ≤ longest_name }
    ensures { result ≡ bytes.now ++ replicate (longest_name - length bytes.now) 0 }
{
    let mut padded = [0; LONGEST_NAME];
    padded[..bytes.len()].copy_from_slice(bytes);
    padded
}

impl Name {
    /// The name that these bytes are, or `None` where they are none.
    pub fn read(bytes: &[u8]) -> Option<Name>
        ensures { result ≡ name_of bytes.now }
    {
        if !is_name(bytes) {
            return None;
        }
        Some(Name {
            bytes: padded(bytes),
            len: bytes.len(),
        })
    }

    /// The bytes of the name.
    pub fn bytes(&self) -> &[u8]
        ensures bytes { result.now ≡ self.now }
        ensures name { IsTrue (is_name self.now) }
    {
        &self.bytes[..self.len]
    }
}
