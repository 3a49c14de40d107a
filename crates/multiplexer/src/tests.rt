ghost use Rattle.std.specs.Prelude.{◌≤◌};

use crate::next;
use nesc_base::FnNo;
use std::test::Fail;

#[test]
fn turns_go_around(rt: HostRuntime) -> Result<(), Fail> {
    assert_eq!(rt; next(2, 0b011, 3), Some(FnNo(1)));
    assert_eq!(rt; next(0, 0b011, 3), Some(FnNo(1)));
    assert_eq!(rt; next(1, 0b011, 3), Some(FnNo(2)));
    assert_eq!(rt; next(1, 0b001, 3), Some(FnNo(1)));
    Ok(())
}

#[test]
fn none_is_taken_where_none_can_be_served(rt: HostRuntime) -> Result<(), Fail> {
    assert_eq!(rt; next(0, 0, 3), None);
    assert_eq!(rt; next(3, 0, 3), None);
    assert_eq!(rt; next(0, 0, 0), None);
    Ok(())
}

#[test]
fn bits_past_the_functions_count_for_nothing(rt: HostRuntime) -> Result<(), Fail> {
    assert_eq!(rt; next(0, 0b1000, 3), None);
    assert_eq!(rt; next(2, 0b1010, 3), Some(FnNo(2)));
    assert_eq!(rt; next(0, 0xFFFF, 0), None);
    Ok(())
}

#[test]
fn the_last_of_sixteen_is_taken(rt: HostRuntime) -> Result<(), Fail> {
    assert_eq!(rt; next(0, 0x8000, 16), Some(FnNo(16)));
    assert_eq!(rt; next(15, 0x8001, 16), Some(FnNo(16)));
    assert_eq!(rt; next(16, 0x8001, 16), Some(FnNo(1)));
    Ok(())
}

// The same, function by function, of three functions.
fn plain_next(last: u8, runnable: u16) -> Option<FnNo>
    requires { last ≤ 3 }
{
    for step in 0..3 {
        let index = (last + step) % 3;
        if (runnable >> index) & 1 == 1 {
            return Some(FnNo(index + 1));
        }
    }
    None
}

#[test]
fn every_mask_of_three_functions_gives_what_a_plain_loop_gives(
    rt: HostRuntime,
) -> Result<(), Fail> {
    for last in 0..4 {
        for runnable in 0..16 {
            assert_eq!(rt;
                next(last, runnable, 3),
                plain_next(last, runnable),
                "{runnable:b} after {last}"
            );
        }
    }
    Ok(())
}
