ghost use Rattle.std.specs.Prelude.{◌≡◌, ◌≢◌, ◌≤◌, ◌<◌, ◌+◌, ◌^◌, ℕ, false, if◌then◌else◌};
ghost use Rattle.std.specs.Prelude.{IfOk, MatchOption, None, length};
ghost use Rattle.std.specs.Int.{bit_at};
ghost use Rattle.nesc_requests.specs.Machine.{most_functions};
ghost use Rattle.nesc_requests.specs.Script.{numbered};
ghost use Rattle.vf_registers.specs.Registers.{AgreesWithMisses, Comes, bank_of, fresh, function_write};
ghost use Rattle.vf_registers.specs.Registers.{miss_of, physical_bank, raised, reads, writes};

use crate::fault::RegFault;
use crate::function::Function;
use crate::numbers::{FLUSH_BTLB, PENDING};
use nesc_base::{FnNo, NoMemory};
use nesc_requests::Miss;
use std::alloc::Global;
use std::marker::Model;
use std::mem;

// The same bits, but for one that is on or off.
fn with_bit(bits: u16, place: usize, on: bool) -> u16
    requires { place < most_functions }
    ensures there { bit_at result place ≡ (if on then 1 else 0) }
    ensures others { (k : ℕ) → k ≢ place → bit_at result k ≡ bit_at bits k }
{
    if on {
        bits | (1 << place)
    } else {
        bits & !(1 << place)
    }
}

/// The registers of the physical function and of some virtual functions, which are numbered from 1.
#[derive(Debug, Drop)]
pub struct Registers {
    functions: Vec<Function>,
    // which of them wait
    pending: u16,
    flush_asked: bool,
}

impl Model for Registers {
    ghost use Rattle.vf_registers.specs.Registers.{DeviceRegisters, IsSound};

    ghost Value = { DeviceRegisters };

    ghost view = { λ registers. record { functions = registers.functions.items; flush_asked = registers.flush_asked } };

    ghost invariant = { λ registers. IsSound registers.functions.items registers.pending };
}

impl Registers {
    /// The registers of so many functions, up to 16, all of them 0. An `Err` says that there is no memory for them. No
    /// other call takes any.
    pub fn new(alloc: Global, functions: u8) -> Result<Registers, NoMemory>
        requires { functions ≤ most_functions }
        ensures { IfOk result (λ registers. registers ≡ fresh functions) }
    {
        Ok(Registers {
            functions: vec![in alloc; Function::QUIET; usize::from(functions)]?,
            pending: 0,
            flush_asked: false,
        })
    }

    // At which index a function stands, if there is one of this number.
    fn index(&self, f: FnNo) -> Option<usize>
        ensures { MatchOption result (numbered self.now.functions f.0 ≡ None)
            (λ index. (index < length self.now.functions) × (f.0 ≡ index + 1)) }
    {
        let index = usize::from(f.0).checked_sub(1)?;
        if index < self.functions.len() {
            Some(index)
        } else {
            None
        }
    }

    /// What a register of a virtual function reads as. A function that is not there has no registers.
    pub fn read(&self, f: FnNo, number: u32) -> Result<u64, RegFault>
        ensures { result ≡ reads (bank_of self.now f.0) number }
    {
        match self.index(f) {
            Some(index) => self.functions[index].read(number),
            None => Err(RegFault::NoRegister { number }),
        }
    }

    /// Writes a value into a register of a virtual function. A function that is not there has no registers.
    pub fn write(&mut self, f: FnNo, number: u32, value: u64) -> Result<(), RegFault>
        ensures { Comes (function_write self.old f.0 number value) result self.old self.new }
    {
        let Some(index) = self.index(f) else {
            return Err(RegFault::NoRegister { number });
        };
        let function = &mut self.functions[index];
        let written = function.write(number, value);
        self.pending = with_bit(self.pending, index, function.miss.is_some());
        written
    }

    /// What a register of the physical function reads as.
    pub fn pf_read(&self, number: u32) -> Result<u64, RegFault>
        ensures content { result ≡ reads (physical_bank self.now) number }

        // The bits of Pending are those of the functions that wait.
        ensures agrees { number ≡ PENDING → IfOk result (AgreesWithMisses self.now) }

        // They are sixteen.
        ensures few { number ≡ PENDING → IfOk result (λ bits. bits < 2 ^ most_functions) }
    {
        match number {
            PENDING => Ok(u64::from(self.pending)),
            FLUSH_BTLB => Ok(0),
            _ => Err(RegFault::NoRegister { number }),
        }
    }

    /// Writes a value into a register of the physical function.
    pub fn pf_write(&mut self, number: u32, value: u64) -> Result<(), RegFault>
        ensures { Comes (writes (physical_bank self.old) number value) result self.old self.new }
    {
        match number {
            PENDING => Err(RegFault::ReadOnly { number }),
            FLUSH_BTLB => {
                self.flush_asked = true;
                Ok(())
            }
            _ => Err(RegFault::NoRegister { number }),
        }
    }

    /// A function waits from now on. It may not have waited before. A function that is not there does not wait.
    pub fn raise(&mut self, f: FnNo, miss: Miss)
        requires { miss_of self.old f.0 ≡ None }
        ensures { self.new ≡ raised self.old f.0 miss }
    {
        if let Some(index) = self.index(f) {
            self.functions[index].miss = Some(miss);
            self.pending = with_bit(self.pending, index, true);
        }
    }

    /// What a function waits for, or `None` where it does not wait.
    pub fn miss(&self, f: FnNo) -> Option<Miss>
        ensures { result ≡ miss_of self.now f.0 }
    {
        self.functions[self.index(f)?].miss
    }

    /// Whether the host has asked for an empty cache of translations since this was last called, or since the registers
    /// were reset.
    pub fn flush_asked(&mut self) -> bool
        ensures asked { result ≡ self.old.flush_asked }
        ensures told { self.new ≡ record self.old { flush_asked = false } }
    {
        mem::replace(&mut self.flush_asked, false)
    }

    /// All registers are as at first: nothing waits, and no empty cache is asked for.
    pub fn reset(&mut self)
        ensures { self.new ≡ fresh (length self.old.functions) }
    {
        self.functions.fill(Function::QUIET);
        self.pending = 0;
        self.flush_asked = false;
    }
}
