ghost use Rattle.std.specs.Prelude.{◌≡◌, ℕ, ◌≤◌, List, ◌++◌, length, min, take, drop};

use std::marker::Model;

/// Bytes that are given away from the front.
#[derive(Debug, Drop)]
pub struct Rest {
    bytes: Vec<u8>,
    at: usize,
}

impl Model for Rest {
    ghost Value = { List ℕ };

    ghost view = { λ rest. drop rest.at rest.bytes.items };

    ghost invariant = { λ rest. rest.at ≤ length rest.bytes.items };
}

impl Rest {
    /// What is left to read is all of these bytes.
    pub fn new(bytes: Vec<u8>) -> Rest
        ensures { result ≡ bytes.items }
    {
        Rest { bytes, at: 0 }
    }

    /// Gives as many bytes as fit, and answers how many. What lies behind them in the buffer stays.
    pub fn give(&mut self, into: &mut [u8]) -> usize
        ensures count { result ≡ min (length into.old) (length self.old) }
        ensures given { into.new ≡ take result self.old ++ drop result into.old }
        ensures rest { self.new ≡ drop result self.old }
    {
        let n = into.len().min(self.bytes.len() - self.at);
        into[..n].copy_from_slice(&self.bytes[self.at..self.at + n]);
        self.at += n;
        n
    }
}
