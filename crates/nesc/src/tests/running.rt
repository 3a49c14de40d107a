use crate::tests::{done, tell, times};
use crate::without_memory;
use nesc_fakes::MemSink;
use nesc_monitor::Status;
use std::test::Fail;

/// What is written is read back, and kept by a flush.
const FLUSHED: (&str, &str, &str) = (
    r#"host = ["create a 10", "attach 1 a"]
       guest = [["w 3 1111111111111111", "r 2 3", "f"]]"#,
    "h h g1 g1 g1 t i1 t t t t t",
    "h ok\nh ok\ng 1 1\ng 1 2\ng 1 3\nt 1 3 miss unmapped 0\ni 1 hold 1\nt 1 3 walk 0\nr 1 1 ok 1\nt 1 2 hole 0\n\
        t 1 3 walk 0\nt 1 4 hole 0\nr 1 2 ok 3 z 1111111111111111 z\nt 1 flush\nc 14\nr 1 3 flushed 14\ndone 12\n",
);

/// A restart goes back to what was synced.
const RESTARTED: (&str, &str, &str) = (
    r#"host = ["create a 4", "sync", "put a 0 2222222222222222", "get a 0 1", "get a 0 1",
       "put a 0 2222222222222222", "sync", "get a 0 1"]"#,
    "h h h h x h h h x h",
    "h ok\nh ok\nc 10\nh ok\nh data 2222222222222222\nx\nh data z\nh ok\nh ok\nc 22\nx\nh data 2222222222222222\n\
        done 10\n",
);

/// A new file has the number and the data block of one that went, and none of its bytes.
const REUSED: (&str, &str, &str) = (
    r#"host = ["create a 4", "put a 0 9999999999999999", "sync", "delete a", "create b 4", "map b 0 1", "sync",
       "get b 0 1"]"#,
    "h h h h h h h x h",
    "h ok\nh ok\nh ok\nc 14\nh ok\nh ok\nh ok\nh ok\nc 27\nx\nh data z\ndone 9\n",
);

#[test]
fn files_are_kept(rt: HostRuntime) -> Result<(), Fail> {
    for (commands, schedule, trace) in [("", "", "done 0\n"), FLUSHED, RESTARTED, REUSED] {
        let told = tell(rt.alloc(), commands, schedule)?;
        assert_eq!(rt; told.said(), done(trace));
    }
    Ok(())
}

/// Two functions are served in turn.
const IN_TURN: (&str, &str, &str) = (
    r#"machine = { functions = 2 }
       host = ["create a 3", "create b 3", "attach 1 a", "attach 2 b"]
       guest = [["r 0 3"], ["r 0 3"]]"#,
    "h h h h g1 g2 t*6",
    "h ok\nh ok\nh ok\nh ok\ng 1 1\ng 2 1\nt 1 0 hole 0\nt 2 0 hole 0\nt 1 1 hole 0\nt 2 1 hole 0\nt 1 2 hole 0\n\
        r 1 1 ok 3 z z z\nt 2 2 hole 0\nr 2 1 ok 3 z z z\ndone 12\n",
);

/// A request is refused where its function has no file, and where as many wait as may.
const REFUSED: (&str, &str, &str) = (
    r#"host = ["create a 1", "attach 1 a"]
       guest = [["r 0 1", "r 0 1", "r 0 1", "r 0 1", "r 0 1"]]"#,
    "g1 h h g1 g1 g1 g1 g1 t g1 g1",
    "g 1 off\nh ok\nh ok\ng 1 1\ng 1 2\ng 1 3\ng 1 4\ng 1 full\nt 1 0 hole 0\nr 1 1 ok 1 z\ng 1 5\ng 1 end\ndone 11\n",
);

/// Nobody is to be served before there is a request, nor while its function waits.
const IDLE: (&str, &str, &str) = (
    r#"host = ["create a 1", "attach 1 a"]
       guest = [["w 0 1111111111111111"]]"#,
    "t h h t i1 g1 t t h i1 i1 t",
    "t idle\nh ok\nh ok\nt idle\ni 1 none\ng 1 1\nt 1 0 miss unmapped 0\nt idle\nh end\ni 1 hold 1\ni 1 none\n\
        t 1 0 walk 0\nr 1 1 ok 1\ndone 12\n",
);

/// Requests that run past the end of the file, after some blocks.
const PAST_THE_END: (&str, &str, &str) = (
    r#"host = ["create a 4", "attach 1 a"]
       guest = [["w 2 1111111111111111 2222222222222222 3333333333333333", "r 3 2"]]"#,
    "h h g1 g1 t i1 t*5",
    "h ok\nh ok\ng 1 1\ng 1 2\nt 1 2 miss unmapped 0\ni 1 hold 2\nt 1 2 walk 0\nt 1 3 walk 0\nt 1 4 range\n\
        r 1 1 range 2\nt 1 3 walk 0\nt 1 4 range\nr 1 2 range 1\ndone 11\n",
);

#[test]
fn guests_are_served(rt: HostRuntime) -> Result<(), Fail> {
    for (commands, schedule, trace) in [IN_TURN, REFUSED, IDLE, PAST_THE_END] {
        let told = tell(rt.alloc(), commands, schedule)?;
        assert_eq!(rt; told.said(), done(trace));
    }
    Ok(())
}

/// A write ends for which no data block is free, and a read of a block that is not held does not need one.
const NO_SPACE: (&str, &str, &str) = (
    r#"machine = { functions = 2 }
       host = ["create a 20", "create b 4", "map a 0 16", "attach 1 a", "attach 2 b"]
       guest = [["w 16 4444444444444444"], ["r 0 1"]]"#,
    "h h h h h g1 g2 t i1 t",
    "h ok\nh ok\nh ok\nh ok\nh ok\ng 1 1\ng 2 1\nt 1 16 miss unmapped 0\ni 1 nospace\nr 1 1 nospace 0\n\
        t 2 0 hole 0\nr 2 1 ok 1 z\ndone 10\n",
);

/// As many blocks are held as are free, and the write ends at the next.
const SOME_SPACE: (&str, &str, &str) = (
    r#"host = ["create a 20", "map a 0 14", "attach 1 a"]
       guest = [["w 16 5555555555555555 6666666666666666 7777777777777777 8888888888888888"]]"#,
    "h h h g1 t i1 t t t i1",
    "h ok\nh ok\nh ok\ng 1 1\nt 1 16 miss unmapped 0\ni 1 hold 2\nt 1 16 walk 0\nt 1 17 walk 0\n\
        t 1 18 miss unmapped 0\ni 1 nospace\nr 1 1 nospace 2\ndone 10\n",
);

/// The file is shortened before the host handles what a write waits for.
const SHORTENED: (&str, &str, &str) = (
    r#"host = ["create a 4", "attach 1 a", "resize a 2"]
       guest = [["w 3 1111111111111111"]]"#,
    "h h g1 t h i1 t",
    "h ok\nh ok\ng 1 1\nt 1 3 miss unmapped 0\nh ok\ni 1 hold 0\nt 1 3 range\nr 1 1 range 0\ndone 7\n",
);

/// The host puts the block first that a write waits for.
const PUT_FIRST: (&str, &str, &str) = (
    r#"host = ["create a 4", "attach 1 a", "put a 3 aaaaaaaaaaaaaaaa", "get a 3 1"]
       guest = [["w 3 1111111111111111"]]"#,
    "h h g1 t h i1 t h",
    "h ok\nh ok\ng 1 1\nt 1 3 miss unmapped 0\nh ok\ni 1 hold 0\nt 1 3 walk 0\nr 1 1 ok 1\n\
        h data 1111111111111111\ndone 8\n",
);

#[test]
fn what_is_waited_for_is_judged_when_it_is_handled(rt: HostRuntime) -> Result<(), Fail> {
    for (commands, schedule, trace) in [NO_SPACE, SOME_SPACE, SHORTENED, PUT_FIRST] {
        let told = tell(rt.alloc(), commands, schedule)?;
        assert_eq!(rt; told.said(), done(trace));
    }
    Ok(())
}

// Sixty-four blocks are staged before the last write, as many as the slack is.
#[test]
fn a_commit_comes_where_the_slack_is_used_up(rt: HostRuntime) -> Result<(), Fail> {
    let alloc = rt.alloc();
    let host = "host = ['create a 1', 'map a 0 1', 'sync', 'attach 1 a']\nguest = [[";
    let mut commands = times(alloc, host, "'w 0 1111111111111111', ", 65)?;
    commands.push_str("]]")?;
    let schedule = times(alloc, "h h h h", " g1 t", 65)?;
    let mut trace = String::from_str(alloc, "h ok\nh ok\nh ok\nc 14\nh ok\n")?;
    for id in 1..=65 {
        let commit = if id == 65 { "c 23\n" } else { "" };
        let lines = format!(in alloc; "g 1 {id}\n{commit}t 1 0 walk 0\nr 1 {id} ok 1\n")?;
        trace.push_str(lines.as_str())?;
    }
    trace.push_str("done 134\n")?;
    let told = tell(alloc, commands.as_str(), schedule.as_str())?;
    assert_eq!(rt; told.said(), done(trace.as_str()));
    Ok(())
}

/// Each of six rounds lets a request wait, has one too many, and drops the first in a restart. A machine with a queue
/// of one has three buffers, so none may be lost.
const DROPPED: (&str, &str, &str) = (
    r#"machine = { queue = 1 }
       host = ["create a 1", "sync", "attach 1 a", "attach 1 a",
           "attach 1 a", "attach 1 a", "attach 1 a", "attach 1 a", "attach 1 a"]
       guest = [["r 0 1", "w 0 z", "r 0 1", "w 0 z", "r 0 1", "w 0 z", "r 0 1", "w 0 z"]]"#,
    "h h h g1 g1 x h g1 g1 x h g1 g1 x h g1 g1 x h g1 g1 x h g1 g1 x h g1 t",
    "h ok\nh ok\nc 10\nh ok\ng 1 1\ng 1 full\nx\nh ok\ng 1 2\ng 1 full\nx\nh ok\ng 1 3\ng 1 full\nx\nh ok\ng 1 4\n\
        g 1 full\nx\nh ok\ng 1 5\ng 1 full\nx\nh ok\ng 1 6\ng 1 full\nx\nh ok\ng 1 7\nt 1 0 hole 0\nr 1 7 ok 1 z\n\
        done 29\n",
);

#[test]
fn requests_that_a_restart_drops_leave_room_for_others(rt: HostRuntime) -> Result<(), Fail> {
    let (commands, schedule, trace) = DROPPED;
    let told = tell(rt.alloc(), commands, schedule)?;
    assert_eq!(rt; told.said(), done(trace));
    Ok(())
}

#[test]
fn want_of_memory_is_told(rt: HostRuntime) {
    let alloc = rt.alloc();
    let mut err = MemSink::new(alloc, Vec::new(alloc));
    assert_eq!(rt; without_memory(&mut err), Status::Memory);
    assert_eq!(rt; err.bytes(), b"nesc: memory\n".as_slice());
}
