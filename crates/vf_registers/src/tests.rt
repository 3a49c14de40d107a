ghost use Rattle.std.specs.Prelude.{◌≡◌, None};
ghost use Rattle.vf_registers.specs.Registers.{miss_of};

use crate::{RegFault, Registers};
use nesc_base::FnNo;
use nesc_requests::{Kind, Miss};
use std::test::Fail;

const FIRST: FnNo = FnNo(1);

const SECOND: FnNo = FnNo(2);

const MISS: Miss = Miss {
    v: 3,
    n: 1,
    kind: Kind::Unmapped,
};

fn no_register<T>(number: u32) -> Result<T, RegFault> {
    Err(RegFault::NoRegister { number })
}

fn read_only<T>(number: u32) -> Result<T, RegFault> {
    Err(RegFault::ReadOnly { number })
}

// What the registers 0 to 5 of a function read as.
fn all(registers: &Registers, f: FnNo) -> [Result<u64, RegFault>; 6] {
    [
        registers.read(f, 0),
        registers.read(f, 1),
        registers.read(f, 2),
        registers.read(f, 3),
        registers.read(f, 4),
        registers.read(f, 5),
    ]
}

// The same, of numbers.
fn are(numbers: [u64; 6]) -> [Result<u64, RegFault>; 6] {
    numbers.map(Ok)
}

// Makes a function wait that does not.
fn raise(registers: &mut Registers, f: FnNo, miss: Miss) {
    if registers.miss(f).is_none() {
        registers.raise(f, miss);
    }
}

#[test]
fn size_and_root_read_as_they_were_written(rt: HostRuntime) -> Result<(), Fail> {
    let mut registers = Registers::new(rt.alloc(), 3)?;
    assert_eq!(rt; all(&registers, SECOND), are([0; 6]));
    assert_eq!(rt; registers.write(SECOND, 0, 1_048_576), Ok(()));
    assert_eq!(rt; registers.write(SECOND, 1, 64), Ok(()));
    assert_eq!(rt; all(&registers, SECOND), are([1_048_576, 64, 0, 0, 0, 0]));
    assert_eq!(rt; registers.write(SECOND, 0, u64::MAX), Ok(()));
    assert_eq!(rt; registers.read(SECOND, 0), Ok(u64::MAX));
    assert_eq!(rt; all(&registers, FIRST), are([0; 6]));
    assert_eq!(rt; all(&registers, FnNo(3)), are([0; 6]));
    Ok(())
}

#[test]
fn the_registers_of_a_miss_cannot_be_written(rt: HostRuntime) -> Result<(), Fail> {
    let mut registers = Registers::new(rt.alloc(), 1)?;
    raise(&mut registers, FIRST, MISS);
    assert_eq!(rt; registers.write(FIRST, 2, 5), read_only(2));
    assert_eq!(rt; registers.write(FIRST, 3, 5), read_only(3));
    assert_eq!(rt; registers.write(FIRST, 4, 5), read_only(4));
    assert_eq!(rt; registers.pf_write(0, 0), read_only(0));
    assert_eq!(rt; all(&registers, FIRST), are([0, 0, 3, 1, 2, 0]));
    Ok(())
}

#[test]
fn there_are_six_registers_of_each_function_that_is_there(rt: HostRuntime) -> Result<(), Fail> {
    let mut registers = Registers::new(rt.alloc(), 2)?;
    assert_eq!(rt; registers.read(FIRST, 6), no_register(6));
    assert_eq!(rt; registers.write(FIRST, 6, 1), no_register(6));
    assert_eq!(rt; registers.read(FnNo(3), 0), no_register(0));
    assert_eq!(rt; registers.write(FnNo(3), 2, 1), no_register(2));
    assert_eq!(rt; registers.read(FnNo(0), 5), no_register(5));
    assert_eq!(rt; registers.miss(FnNo(3)), None);
    Ok(())
}

#[test]
fn a_miss_shows_in_its_registers_and_in_pending(rt: HostRuntime) -> Result<(), Fail> {
    let mut registers = Registers::new(rt.alloc(), 16)?;
    raise(&mut registers, FIRST, MISS);
    assert_eq!(rt; all(&registers, FIRST), are([0, 0, 3, 1, 2, 0]));
    assert_eq!(rt; registers.pf_read(0), Ok(1));
    assert_eq!(rt; registers.miss(FIRST), Some(MISS));

    let pruned = Miss {
        v: 1_048_575,
        n: 64,
        kind: Kind::Pruned,
    };
    raise(&mut registers, FnNo(16), pruned);
    assert_eq!(rt; all(&registers, FnNo(16)), are([0, 0, 1_048_575, 64, 1, 0]));
    assert_eq!(rt; registers.pf_read(0), Ok(0x8001));
    assert_eq!(rt; registers.miss(SECOND), None);
    Ok(())
}

#[test]
fn a_write_of_rewalk_ends_the_waiting(rt: HostRuntime) -> Result<(), Fail> {
    let mut registers = Registers::new(rt.alloc(), 2)?;
    raise(&mut registers, FIRST, MISS);
    raise(&mut registers, SECOND, MISS);
    assert_eq!(rt; registers.write(FIRST, 5, 0), Ok(()));
    assert_eq!(rt; all(&registers, FIRST), are([0; 6]));
    assert_eq!(rt; registers.pf_read(0), Ok(2));
    assert_eq!(rt; registers.miss(SECOND), Some(MISS));
    assert_eq!(rt; registers.write(FIRST, 5, 7), Ok(()));
    assert_eq!(rt; registers.pf_read(0), Ok(2));
    Ok(())
}

#[test]
fn an_empty_cache_is_asked_for_once(rt: HostRuntime) -> Result<(), Fail> {
    let mut registers = Registers::new(rt.alloc(), 1)?;
    assert_eq!(rt; registers.flush_asked(), false);
    assert_eq!(rt; registers.pf_write(1, 9), Ok(()));
    assert_eq!(rt; registers.pf_read(1), Ok(0));
    assert_eq!(rt; registers.flush_asked(), true);
    assert_eq!(rt; registers.flush_asked(), false);
    assert_eq!(rt; registers.pf_read(2), no_register(2));
    assert_eq!(rt; registers.pf_write(2, 1), no_register(2));
    Ok(())
}

#[test]
fn a_reset_leaves_nothing(rt: HostRuntime) -> Result<(), Fail> {
    let mut registers = Registers::new(rt.alloc(), 2)?;
    assert_eq!(rt; registers.write(SECOND, 0, 4), Ok(()));
    assert_eq!(rt; registers.write(SECOND, 1, 32), Ok(()));
    raise(&mut registers, SECOND, MISS);
    assert_eq!(rt; registers.pf_write(1, 1), Ok(()));
    registers.reset();
    assert_eq!(rt; all(&registers, SECOND), are([0; 6]));
    assert_eq!(rt; registers.pf_read(0), Ok(0));
    assert_eq!(rt; registers.flush_asked(), false);
    Ok(())
}
