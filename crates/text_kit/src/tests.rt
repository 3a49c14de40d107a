ghost use Rattle.std.specs.Prelude.{Some};

use crate::{
    BUFFER_BYTES, Buffer, Buffered, number, read_block, write_block, write_number, write_text,
};
use nesc_base::{BLOCK_BYTES, Block, Sink, WriteFault};
use std::alloc::Global;
use std::test::Fail;

/// A sink that keeps what it takes, a few bytes a call, and fails where it has no room left.
#[derive(Debug, Drop)]
struct Kept {
    bytes: Vec<u8>,
    most: usize,
    room: usize,
    faults: u64,
}

impl Kept {
    fn new(alloc: Global, most: usize, room: usize) -> Kept {
        Kept {
            bytes: Vec::new(alloc),
            most,
            room,
            faults: 0,
        }
    }
}

impl Sink for Kept {
    ghost taken = { λ kept. Some kept.bytes.items };

    ghost faults = { λ kept. kept.faults };

    fn write(&mut self, from: &[u8]) -> Result<usize, WriteFault> {
        let n = from.len().min(self.most).min(self.room);
        if n < from.len().min(1) || self.bytes.extend_from_slice(&from[..n]).is_err() {
            self.faults = self.faults.saturating_add(1);
            return Err(WriteFault);
        }
        self.room -= n;
        Ok(n)
    }
}

/// Writes both texts through a buffer.
fn twice<K: Sink>(
    buffer: &mut Buffer,
    out: &mut K,
    one: &[u8],
    other: &[u8],
) -> Result<(), WriteFault> {
    let mut buffered = Buffered::new(buffer, out);
    write_text(&mut buffered, one)?;
    write_text(&mut buffered, other)?;
    buffered.flush()
}

#[test]
fn numbers(rt: HostRuntime) -> Result<(), Fail> {
    for (text, want) in [
        ("0", Some(0)),
        ("007", Some(7)),
        ("00000000000000000019", Some(19)),
        ("18446744073709551615", Some(u64::MAX)),
        ("18446744073709551616", None),
        ("99999999999999999999", None),
        ("000000000000000000019", None),
        ("", None),
        ("+1", None),
        ("-1", None),
        ("1 ", None),
        ("1a", None),
    ] {
        assert_eq!(rt; number(text.as_bytes()), want, "at {text}");
    }
    let mut out = Kept::new(rt.alloc(), 3, 100);
    write_number(&mut out, 0).ok().ok_or("0")?;
    write_number(&mut out, 10203).ok().ok_or("10203")?;
    write_number(&mut out, u64::MAX).ok().ok_or("the greatest")?;
    assert_eq!(rt;
        out.bytes.as_slice(),
        b"01020318446744073709551615".as_slice()
    );
    Ok(())
}

#[test]
fn blocks(rt: HostRuntime) -> Result<(), Fail> {
    // Bytes 01 23 .. ef again and again, and one block that has 1f at its end alone.
    let mut repeated = [0; BLOCK_BYTES];
    for (k, byte) in repeated.iter_mut().enumerate() {
        *byte = [0x01, 0x23, 0x45, 0x67, 0x89, 0xab, 0xcd, 0xef][k % 8];
    }
    let mut last = [0; BLOCK_BYTES];
    last[1023] = 0x1f;
    let mut last_digits = [b'0'; 2048];
    last_digits[2046] = b'1';
    last_digits[2047] = b'f';
    for (block, text) in [
        (Block::zero(), b"z".as_slice()),
        (Block(repeated), b"0123456789abcdef".as_slice()),
        (Block(last), last_digits.as_slice()),
    ] {
        let mut out = Kept::new(rt.alloc(), 1000, 4000);
        write_block(&mut out, &block).ok().ok_or("not written")?;
        assert_eq!(rt; out.bytes.as_slice(), text);
        assert_eq!(rt; read_block(text), Some(block));
    }
    last_digits[2047] = b'F';
    assert_eq!(rt; read_block(&last_digits), Some(Block(last)));
    assert_eq!(rt; read_block(b"0123456789ABCDEF"), Some(Block(repeated)));
    for text in [
        "",
        "Z",
        "zz",
        "0123456789abcde",
        "0123456789abcdeg",
        "0123456789abcdef0",
    ] {
        assert_eq!(rt; read_block(text.as_bytes()), None, "at {text}");
    }
    Ok(())
}

#[test]
fn gathered(rt: HostRuntime) -> Result<(), Fail> {
    let mut buffer = Buffer::new(rt.alloc()).ok().ok_or("memory")?;
    let long = [b'a'; BUFFER_BYTES + 7];
    let mut out = Kept::new(rt.alloc(), 50_000, 70_000);
    assert_eq!(rt; twice(&mut buffer, &mut out, &long, b"bcd"), Ok(()));
    assert_eq!(rt; out.bytes.len(), 65546);
    assert_eq!(rt; out.bytes.last().copied(), Some(b'd'));
    // The sink is full behind the first four bytes.
    let mut full = Kept::new(rt.alloc(), 3, 4);
    assert_eq!(rt;
        twice(&mut buffer, &mut full, b"one", b"other"),
        Err(WriteFault)
    );
    assert_eq!(rt; full.bytes.as_slice(), b"oneo".as_slice());
    Ok(())
}
