use crate::{Commands, InputFault, Limit, MOST_BYTES, buffers_of, read_commands, read_schedule};
use nesc_base::{FnNo, Name};
use nesc_requests::{Buffers, HostCommand, Machine, Request, Word};
use std::alloc::Global;
use std::test::Fail;

fn bad_key(table: u8, place: u32) -> Option<InputFault> {
    Some(InputFault::BadKey { table, place })
}

fn bad_command(actor: u8, index: u32) -> Option<InputFault> {
    Some(InputFault::BadCommand { actor, index })
}

fn bad_word<T>(line: u32, column: u32) -> Result<T, InputFault> {
    Err(InputFault::BadWord { line, column })
}

fn over<T>(limit: Limit, count: i64) -> Result<T, InputFault> {
    Err(InputFault::OverLimit { limit, count })
}

/// A text with a part of it so many times between its front and its end.
fn text_of(alloc: Global, front: &str, part: &str, times: u32, end: &str) -> Result<Vec<u8>, Fail> {
    let mut text = Vec::new(alloc);
    text.extend_from_slice(front.as_bytes())
        .ok()
        .ok_or("memory")?;
    for _ in 0..times {
        text.extend_from_slice(part.as_bytes())
            .ok()
            .ok_or("memory")?;
    }
    text.extend_from_slice(end.as_bytes()).ok().ok_or("memory")?;
    Ok(text)
}

#[test]
fn keys_and_values_are_judged(rt: HostRuntime) {
    let toml = Some(InputFault::BadToml);
    for (text, fault) in [
        ("", None),
        ("host = []\nguest = []\nmachine = {}", None),
        ("host = [\"create a 4", toml),
        ("host = []\nhost = []", toml),
        ("machine.pool = 9223372036854775808", toml),
        ("z = 1", bad_key(0, 1)),
        ("host = []\nguests = []", bad_key(0, 1)),
        ("machine = 2\nhost = []\nguest = []", bad_key(0, 3)),
        ("[[machine]]", bad_key(0, 1)),
        ("host = ['sync', 1]\nguest = [[]]", bad_key(0, 2)),
        ("host = 'sync'\na = 1", bad_key(0, 1)),
        ("guest = [['f'], 'f']", bad_key(0, 1)),
        ("guest = [['q', 1]]", bad_key(0, 1)),
        ("z = 1\nmachine.a = 1", bad_key(0, 2)),
        ("machine = {queue = 0, pool = 8.0}", bad_key(1, 1)),
        (
            "machine = {functions = 1, btlb = 4, functions2 = 1}",
            bad_key(1, 3),
        ),
        ("machine.queue = '4'\nmachine.btlb = 0", bad_key(1, 2)),
    ] {
        assert_eq!(rt;
            read_commands(rt.alloc(), text.as_bytes()).err(),
            fault,
            "at {text}"
        );
    }
    assert_eq!(rt; read_commands(rt.alloc(), b"#\xff").err(), toml);
}

/// The numbers of the machine of a commands file.
fn machine_of(alloc: Global, text: &[u8]) -> Result<Machine, InputFault> {
    Ok(read_commands(alloc, text)?.machine())
}

fn machine(functions: u8, queue: u8, pool: u16, btlb: u8) -> Result<Machine, InputFault> {
    Ok(Machine {
        functions,
        queue,
        pool,
        btlb,
    })
}

#[test]
fn machines_are_judged(rt: HostRuntime) -> Result<(), Fail> {
    let most = "functions = 16, queue = 64, pool = 4096, btlb = 64";
    let least = "functions = 1, queue = 1, pool = 8, btlb = 1";
    for (numbers, want) in [
        ("", machine(1, 4, 8, 4)),
        (most, machine(16, 64, 4096, 64)),
        (least, machine(1, 1, 8, 1)),
        ("functions = 0, queue = 0", over(Limit::Functions, 0)),
        ("btlb = 0, functions = 17", over(Limit::Functions, 17)),
        ("queue = 0, pool = 7", over(Limit::Queue, 0)),
        ("queue = 65", over(Limit::Queue, 65)),
        ("btlb = 65, pool = 7", over(Limit::Pool, 7)),
        ("pool = 4097", over(Limit::Pool, 4097)),
        ("btlb = 0", over(Limit::Btlb, 0)),
        ("btlb = 65", over(Limit::Btlb, 65)),
        ("queue = -9223372036854775808", over(Limit::Queue, i64::MIN)),
        ("pool = 9223372036854775807", over(Limit::Pool, i64::MAX)),
    ] {
        let text = text_of(rt.alloc(), "machine = {", numbers, 1, "}\nhost = ['sync']")?;
        assert_eq!(rt; machine_of(rt.alloc(), &text), want, "at {numbers}");
    }
    Ok(())
}

#[test]
fn guests_are_few(rt: HostRuntime) {
    for (text, want) in [
        (
            "guest = [[], []]\nmachine.functions = 2",
            machine(2, 4, 8, 4),
        ),
        ("guest = [['q'], []]\nhost = ['q']", over(Limit::Guests, 2)),
        ("guest = [[], []]\nmachine.btlb = 0", over(Limit::Btlb, 0)),
    ] {
        assert_eq!(rt; machine_of(rt.alloc(), text.as_bytes()), want, "at {text}");
    }
}

#[test]
fn commands_are_judged(rt: HostRuntime) -> Result<(), Fail> {
    let bad = bad_command(0, 2);
    for (command, fault) in [
        ("create abcdefghijklmnopqrstuvwx 1048576", None),
        ("create a 0000000000", None),
        ("create A 4", bad),
        ("create a 1048577", bad),
        ("create a 00000000001", bad),
        ("delete a-b_c.9", None),
        ("delete abcdefghijklmnopqrstuvwxy", bad),
        ("resize a 0", None),
        ("resize a +1", bad),
        ("put  a 1048575 z", None),
        ("put a 0 fedcba9876543210 FEDCBA9876543210", None),
        ("put a 1048576 z", bad),
        ("put a 0", bad),
        ("put a 0 z 111111111111111", bad),
        ("map a 0 64", None),
        ("map a 0 65", bad),
        ("get a 1048575 01", None),
        ("get a 0 0", bad),
        ("attach 0000000001 a", None),
        ("attach 2 a", bad),
        ("detach 1", None),
        ("detach 0", bad),
        ("sync 1", bad),
        (" sync", bad),
        ("sync ", bad),
        ("sync\t", bad),
        ("regs 1", None),
        ("regs", bad),
        ("", bad),
        ("r 0 1", bad),
    ] {
        let text = text_of(rt.alloc(), "host = ['sync', '", command, 1, "']")?;
        assert_eq!(rt;
            read_commands(rt.alloc(), &text).err(),
            fault,
            "at {command}"
        );
    }
    Ok(())
}

#[test]
fn requests_are_judged(rt: HostRuntime) -> Result<(), Fail> {
    let bad = bad_command(2, 3);
    for (request, fault) in [
        ("r 1048575 64", None),
        ("r 0 65", bad),
        ("r 0 0", bad),
        ("r 1048576 1", bad),
        ("w 0 z", None),
        ("w 0", bad),
        ("w 0 Z", bad),
        ("f", None),
        ("f 1", bad),
        ("sync", bad),
    ] {
        let front = "machine.functions = 3\nguest = [['f'], ['f', 'f', '";
        let text = text_of(rt.alloc(), front, request, 1, "'], ['q']]")?;
        let fault = fault.or(bad_command(3, 1));
        assert_eq!(rt;
            read_commands(rt.alloc(), &text).err(),
            fault,
            "at {request}"
        );
    }
    let text = b"guest = [['q']]\nhost = ['sync', 'sync', 'q']";
    assert_eq!(rt; read_commands(rt.alloc(), text).err(), bad_command(0, 3));
    Ok(())
}

#[test]
fn blocks_are_few(rt: HostRuntime) -> Result<(), Fail> {
    let gets = "'get a 0 64',";
    let many = Some(InputFault::OverLimit {
        limit: Limit::Blocks,
        count: 262_145,
    });
    for (front, part, times, end, fault) in [
        ("host = ['put a 0", " z", 64, "']", None),
        ("host = ['put a 0", " z", 65, "']", bad_command(0, 1)),
        ("host = [", gets, 4096, "]", None),
        (
            "host = [",
            gets,
            4096,
            "'map a 0 64']\nguest = [['w 0 z']]",
            many,
        ),
        ("host = [", gets, 4096, "]\nguest = [['r 0 1']]", many),
        (
            "guest = [['r 0 1', 'q']]\nhost = [",
            gets,
            4096,
            "]",
            bad_command(1, 2),
        ),
    ] {
        let text = text_of(rt.alloc(), front, part, times, end)?;
        assert_eq!(rt;
            read_commands(rt.alloc(), &text).err(),
            fault,
            "at {front} {end}"
        );
    }
    Ok(())
}

/// How many steps a schedule of two functions has.
fn steps_of(alloc: Global, text: &str) -> Result<u32, InputFault> {
    Ok(read_schedule(alloc, text.as_bytes(), 2)?.steps())
}

#[test]
fn schedules_are_judged(rt: HostRuntime) {
    for (text, want) in [
        ("", Ok(0)),
        (" \t\r\n", Ok(0)),
        ("t*1048576", Ok(1_048_576)),
        ("t*1048577", over(Limit::Steps, 1_048_577)),
        ("t*1048575\nh", Ok(1_048_576)),
        ("t*1048576\nh q", over(Limit::Steps, 1_048_577)),
        ("t*1048576\nq h", bad_word(2, 1)),
        ("h t*9999999999 q", over(Limit::Steps, 10_000_000_000)),
        ("t*0000000002", Ok(2)),
        ("t*00000000002", bad_word(1, 1)),
        ("h\n\nt*0", bad_word(3, 1)),
        ("t*", bad_word(1, 1)),
        ("t\n g9", bad_word(2, 2)),
        ("t\r g0\n", bad_word(1, 4)),
        ("g2 i0000000001", Ok(2)),
        ("h\r\n\ti3", bad_word(2, 2)),
        ("i00000000001", bad_word(1, 1)),
        ("g", bad_word(1, 1)),
        ("x xx", bad_word(1, 3)),
        ("T", bad_word(1, 1)),
        ("h p1", bad_word(1, 3)),
        ("p2:1048575", bad_word(1, 1)),
        ("x\ne", bad_word(2, 1)),
    ] {
        assert_eq!(rt; steps_of(rt.alloc(), text), want, "at {text}");
    }
}

#[test]
fn texts_are_short(rt: HostRuntime) -> Result<(), Fail> {
    let mut text = text_of(rt.alloc(), "", "        ", 2_097_152, "")?;
    assert_eq!(rt; text.len(), MOST_BYTES);
    assert!(rt; read_commands(rt.alloc(), &text).is_ok());
    assert!(rt; read_schedule(rt.alloc(), &text, 1).is_ok());
    text.push(b'q').ok().ok_or("memory")?;
    let long = Some(InputFault::OverLimit {
        limit: Limit::Text,
        count: 16_777_217,
    });
    assert_eq!(rt; read_commands(rt.alloc(), &text).err(), long);
    assert_eq!(rt; read_schedule(rt.alloc(), &text, 1).err(), long);
    Ok(())
}

#[test]
fn words_are_taken(rt: HostRuntime) -> Result<(), Fail> {
    let mut schedule = read_schedule(rt.alloc(), b"h\tt*3 g01\r\ni2 x", 2)
        .ok()
        .ok_or("memory")?;
    let (g, i) = (Word::G(FnNo(1)), Word::I(FnNo(2)));
    for (left, word) in [
        (7, Word::H),
        (6, Word::T),
        (5, Word::T),
        (4, Word::T),
        (3, g),
        (2, i),
        (1, Word::X),
    ] {
        assert_eq!(rt; schedule.steps(), left);
        assert_eq!(rt; schedule.word(), Some(word));
    }
    assert_eq!(rt; schedule.word(), None);
    assert_eq!(rt; schedule.steps(), 0);
    Ok(())
}

/// The host's next command, with a buffer of its own.
fn command_of(alloc: Global, commands: &mut Commands) -> Option<HostCommand> {
    commands.take_host(&mut Buffers::new(alloc, 1).ok()?)
}

/// A guest's next request, with a buffer of its own.
fn request_of(alloc: Global, commands: &mut Commands, f: u8) -> Option<Request> {
    commands.take_guest(FnNo(f), &mut Buffers::new(alloc, 1).ok()?)
}

/// The first letter of a name.
fn letter(name: &Name) -> u8 {
    name.bytes().first().copied().unwrap_or(0)
}

/// A word for a command, its function or the first letter of its name, its length or first block, and how many blocks.
fn shape_of(command: &HostCommand) -> (&str, u8, u32, u32) {
    match command {
        HostCommand::Create { name, length } => ("create", letter(name), *length, 0),
        HostCommand::Delete { name } => ("delete", letter(name), 0, 0),
        HostCommand::Resize { name, length } => ("resize", letter(name), *length, 0),
        HostCommand::Put { name, v, blocks } => ("put", letter(name), *v, blocks.len()),
        HostCommand::Map { name, v, n } => ("map", letter(name), *v, *n),
        HostCommand::Get { name, v, into } => ("get", letter(name), *v, into.len()),
        HostCommand::Attach { f, name } => ("attach", letter(name), u32::from(f.0), 0),
        HostCommand::Detach { f } => ("detach", f.0, 0, 0),
        HostCommand::Sync => ("sync", 0, 0, 0),
        HostCommand::Regs { f } => ("regs", f.0, 0, 0),
    }
}

#[test]
fn commands_are_taken(rt: HostRuntime) -> Result<(), Fail> {
    let text =
        b"host = ['create a 5', 'delete b', 'resize c 0', 'put d 7 z z z', 'map e 8 64', 'get f 9 2', \
            'attach 2 g', 'detach 1', 'sync', 'regs 2']\nmachine.functions = 2";
    let mut commands = read_commands(rt.alloc(), text).ok().ok_or("memory")?;
    for want in [
        ("create", b'a', 5, 0),
        ("delete", b'b', 0, 0),
        ("resize", b'c', 0, 0),
        ("put", b'd', 7, 3),
        ("map", b'e', 8, 64),
        ("get", b'f', 9, 2),
        ("attach", b'g', 2, 0),
        ("detach", 1, 0, 0),
        ("sync", 0, 0, 0),
        ("regs", 2, 0, 0),
    ] {
        let command = command_of(rt.alloc(), &mut commands).ok_or("none")?;
        assert_eq!(rt; shape_of(&command), want);
    }
    assert!(rt; command_of(rt.alloc(), &mut commands).is_none());
    Ok(())
}

#[test]
fn blocks_are_kept_in_each_form(rt: HostRuntime) -> Result<(), Fail> {
    let text = text_of(
        rt.alloc(),
        "host = ['put a 0 ",
        "00",
        1023,
        "01 0123456789abcdef z']",
    )?;
    let mut commands = read_commands(rt.alloc(), &text).ok().ok_or("memory")?;
    let Some(HostCommand::Put { blocks, .. }) = command_of(rt.alloc(), &mut commands) else {
        return Err(Fail::from("none"));
    };
    assert_eq!(rt; blocks.len(), 3);
    assert!(rt; blocks.get(0).0[1021..] == [0, 0, 1]);
    assert!(rt; blocks.get(1).0[1015..1018] == [0xef, 0x01, 0x23]);
    assert!(rt; blocks.get(2).0[1021..] == [0, 0, 0]);
    Ok(())
}

#[test]
fn requests_are_taken_again(rt: HostRuntime) -> Result<(), Fail> {
    let text = b"guest = [[], ['r 5 2', 'w 1048575 z z z', 'f']]\nmachine.functions = 3";
    let mut commands = read_commands(rt.alloc(), text).ok().ok_or("memory")?;
    assert_eq!(rt; buffers_of(commands.machine()), 16);
    for (comes_back, first, count) in [
        (true, 5, 2),
        (true, 5, 2),
        (false, 5, 2),
        (true, 1_048_575, 3),
        (false, 1_048_575, 3),
        (true, 0, 0),
        (false, 0, 0),
    ] {
        let mut spare = Buffers::new(rt.alloc(), 1)?;
        let request = commands.take_guest(FnNo(2), &mut spare).ok_or("none")?;
        assert_eq!(rt; (request.first(), request.blocks()), (first, count));
        if comes_back {
            commands.give_back(FnNo(2), request);
        }
    }
    for f in [1, 2, 3, 4] {
        assert!(rt; request_of(rt.alloc(), &mut commands, f).is_none());
    }
    Ok(())
}
