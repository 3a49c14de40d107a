use crate::tests::{no_disk, run_over, times};
use nesc_base::NoMemory;
use nesc_monitor::Status;
use std::alloc::Global;
use std::test::Fail;

/// What is written for two texts over a disk of no blocks: the line on standard error alone, but for its first words
/// where a text is refused.
fn judge(alloc: Global, commands: &str, schedule: &str) -> Result<String, NoMemory> {
    let mut image = no_disk(alloc);
    let told = run_over(alloc, commands, schedule, &mut image)?;
    let (status, out, line) = told.said();
    let line = match status {
        Status::Input => line.strip_prefix("nesc: input ").unwrap_or(line),
        _ => line,
    };
    Ok(format!(in alloc; "{out}{line}")?)
}

/// Commands files, and what is written for them.
const REFUSED: [(&str, &str); 12] = [
    ("host = [\"create a 4", "commands toml\n"),
    ("guest = []\nhosts = []", "commands key 0 2\n"),
    ("machine.btlb = 65\nmachine.on = 1", "commands key 1 2\n"),
    ("machine.functions = 17", "commands limit functions 17\n"),
    ("machine.queue = 0\nhost = ['']", "commands limit queue 0\n"),
    ("machine.pool = -17", "commands limit pool -17\n"),
    ("machine.btlb = 65", "commands limit btlb 65\n"),
    ("guest = [[], ['']]", "commands limit guests 2\n"),
    ("host = [\"create A 4\"]", "commands h 1\n"),
    ("guest = [['']]\nhost = ['sync', 'f']", "commands h 2\n"),
    ("guest = [['f', 'f', 'sync']]", "commands g1 3\n"),
    ("", "schedule word 2 2\n"),
];

// Where both texts are refused the commands are judged first.
#[test]
fn the_line_says_why_a_text_is_refused(rt: HostRuntime) -> Result<(), Fail> {
    for (commands, line) in REFUSED {
        let said = judge(rt.alloc(), commands, "t\n g9")?;
        assert_eq!(rt; said.as_str(), line);
    }
    Ok(())
}

#[test]
fn two_texts_that_are_accepted_come_to_the_image(rt: HostRuntime) -> Result<(), Fail> {
    let commands = r#"guest = [["r 1048575 64", "w 0 z", "f"], []]
        host = ["create a 1048576", "put a 0 z", "map a 0 64", "attach 2 a", "sync", "regs 1"]
        machine = { functions = 2, queue = 64, pool = 4096, btlb = 64 }"#;
    let said = judge(rt.alloc(), commands, "h g2 i2 x t*1048571 t")?;
    assert_eq!(rt; said.as_str(), "nesc: image size 0\n");
    Ok(())
}

#[test]
fn blocks_and_steps_have_limits(rt: HostRuntime) -> Result<(), Fail> {
    let alloc = rt.alloc();
    let mut many = times(alloc, "host = ['get a 0 1'", ", 'get a 0 64'", 4096)?;
    many.push_str("]")?;
    let said = judge(alloc, many.as_str(), "")?;
    assert_eq!(rt; said.as_str(), "commands limit blocks 262145\n");
    let said = judge(alloc, "", "t*1048577")?;
    assert_eq!(rt; said.as_str(), "schedule limit steps 1048577\n");
    Ok(())
}

// A text of as many bytes as it may have is judged by what it says.
#[test]
fn texts_have_limits(rt: HostRuntime) -> Result<(), Fail> {
    let alloc = rt.alloc();
    let first = times(alloc, "=", " ", 4095)?;
    let spaces = times(alloc, "", " ", 4096)?;
    let most = times(alloc, first.as_str(), spaces.as_str(), 4095)?;
    let more = format!(in alloc; "{most} ")?;
    let (most, more) = (most.as_str(), more.as_str());
    for (commands, schedule, line) in [
        (most, more, "schedule limit text 16777217\n"),
        (most, "", "commands toml\n"),
        (more, "", "commands limit text 16777217\n"),
        ("", most, "schedule word 1 1\n"),
    ] {
        assert_eq!(rt; judge(alloc, commands, schedule)?.as_str(), line);
    }
    Ok(())
}
