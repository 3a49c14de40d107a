use crate::tests::{done, new_image, run_over, tell, times};
use std::test::Fail;

/// What the host does to the files of the least image with two functions, of which the guest of function 1 writes three
/// blocks from block 14 on. One block is free behind the `map` of 15; the disk fails to read the first block that is
/// got.
const ANSWERS: (&str, &str, &str) = (
    r#"machine = { functions = 2 }
    guest = [["w 14 z z z"]]
    host = [
        "create a 20", "create a 1", "create b 4", "delete c", "resize c 1", "resize a 18", "put c 0 z",
        "put a 0 1111111111111111", "map c 0 1", "map a 0 15", "put a 16 z z z", "put a 14 z z z",
        "map a 16 3", "map a 14 3", "sync", "sync", "get c 0 1", "get a 17 2", "get a 0 2", "get a 0 2",
        "get a 15 3", "regs 1", "attach 1 c", "attach 1 a", "attach 1 c", "attach 1 b", "attach 1 a",
        "attach 2 a", "delete a", "regs 1", "detach 2", "regs 1", "resize a 17", "regs 1", "detach 1",
        "detach 1", "delete a", "delete a"
    ]"#,
    "h h h h h h h h h h h h h h h h h h h h h h h h h h h h h h h g1 t t h h h h i1 t t i1 h h h",
    "h ok\nh exists\nh ok\nh nofile\nh nofile\nh ok\nh nofile\nh ok\nh nofile\nh ok\nh range\nh nospace 1 2\n\
        h range\nh nospace 1 2\nh ok\nc 42\nh ok\nc 42\nh nofile\nh range\nh media\nh data 1111111111111111 z\n\
        h data z z z\nh notattached\nh nofile\nh ok\nh nofile\nh functiontaken\nh functiontaken\nh filetaken\n\
        h attached\nh regs 18 0 0 0 0\nh notattached\ng 1 1\nt 1 14 walk 0\nt 1 15 miss unmapped 0\n\
        h regs 18 15 2 2 1\nh ok\nh regs 17 15 2 2 1\nh queued\ni 1 hold 1\nt 1 15 walk 0\nt 1 16 miss unmapped 0\n\
        i 1 nospace\nr 1 1 nospace 2\nh ok\nh ok\nh nofile\ndone 45\n",
);

// The opening reads seven blocks.
#[test]
fn each_command_has_its_answers(rt: HostRuntime) -> Result<(), Fail> {
    let (commands, schedule, trace) = ANSWERS;
    let mut image = new_image(rt.alloc(), &[8], &[])?;
    let told = run_over(rt.alloc(), commands, schedule, &mut image)?;
    assert_eq!(rt; told.said(), done(trace));
    Ok(())
}

/// What the host is refused, in the order in which it is judged.
const REFUSALS: (&str, &str, &str) = (
    r#"host = ["put a 0 z", "create a 2", "create a 2", "put a 1 z z", "attach 1 b", "attach 1 a", "attach 1 a",
       "regs 1", "delete a", "detach 1", "detach 1", "regs 1"]"#,
    "h h h h h h h h h h h h",
    "h nofile\nh ok\nh exists\nh range\nh nofile\nh ok\nh functiontaken\nh regs 2 0 0 0 0\nh attached\nh ok\n\
        h notattached\nh notattached\ndone 12\n",
);

/// With one block free, two are put that are not held, and then one.
const PUT_IN_PLACE: (&str, &str, &str) = (
    r#"host = ["create a 20", "map a 0 15", "put a 15 z z", "put a 15 z", "get a 15 1"]"#,
    "h h h h h",
    "h ok\nh ok\nh nospace 1 2\nh ok\nh data z\ndone 5\n",
);

#[test]
fn what_is_refused_changes_nothing(rt: HostRuntime) -> Result<(), Fail> {
    for (commands, schedule, trace) in [REFUSALS, PUT_IN_PLACE] {
        let told = tell(rt.alloc(), commands, schedule)?;
        assert_eq!(rt; told.said(), done(trace));
    }
    Ok(())
}

#[test]
fn there_are_no_more_than_thirty_two_files(rt: HostRuntime) -> Result<(), Fail> {
    let alloc = rt.alloc();
    let mut commands = String::from_str(alloc, "host = [")?;
    for file in 0..33 {
        commands.push_str(format!(in alloc; "'create f{file} 64', ")?.as_str())?;
    }
    commands.push_str("'create f31 1', 'delete f7', 'create f32 64', 'get f32 0 1']")?;
    let schedule = times(alloc, "", "h ", 37)?;
    let mut trace = times(alloc, "", "h ok\n", 32)?;
    trace.push_str("h noslot\nh exists\nh ok\nh ok\nh data z\ndone 37\n")?;
    let told = tell(alloc, commands.as_str(), schedule.as_str())?;
    assert_eq!(rt; told.said(), done(trace.as_str()));
    Ok(())
}
