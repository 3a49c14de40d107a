//! Lines of steps of a machine that has trees, and the order of the lines of a step. All others are seen where the
//! program runs.

use nesc_base::FnNo;
use nesc_fakes::MemSink;
use nesc_requests::{End, Kind, Miss, Reply, Request, Word};
use plain_machine::{Answer, Built, Handled, How, Outcome};
use std::alloc::Global;
use trace_text::{write_done, write_end, write_step};

const F: FnNo = FnNo(3);

/// A step that makes no commit and ends no request.
fn plain(answer: Answer) -> Outcome {
    Outcome {
        before: None,
        answer,
        drops: 0,
        built: None,
        after: None,
        reply: None,
    }
}

/// Whether a step with this outcome is told by this text.
fn tells(alloc: Global, word: Word, outcome: Outcome, text: &str) -> bool {
    let mut sink = MemSink::new(alloc, Vec::new(alloc));
    let told = write_step(&mut sink, word, &outcome);
    told.is_ok() && sink.bytes() == text.as_bytes()
}

#[test]
fn ticks_with_trees(rt: HostRuntime) {
    for (v, how, text) in [
        (1_048_575, How::Hit, "t 3 1048575 hit\n"),
        (3, How::Walk(5), "t 3 3 walk 5\n"),
        (3, How::Hole(1), "t 3 3 hole 1\n"),
    ] {
        let answer = Answer::Served { f: F, v, how };
        assert!(rt; tells(rt.alloc(), Word::T, plain(answer), text), "{text}");
    }
    let (kind, f, fetched) = (Kind::Pruned, F, 2);
    let miss = Miss { v: 7, n: 2, kind };
    let missed = plain(Answer::Missed { f, miss, fetched });
    let text = "t 3 7 miss pruned 2\n";
    assert!(rt; tells(rt.alloc(), Word::T, missed, text));
}

#[test]
fn trees_that_go(rt: HostRuntime) {
    let leaf = Answer::PrunedAt(F, Some((0, 20)));
    for (word, answer, text) in [
        (Word::P(F), Answer::Pruned(F), "p 3\n"),
        (Word::PAt(F, 9), leaf, "p 3 0 20\n"),
        (Word::PAt(F, 9), Answer::PrunedAt(F, None), "p 3 none\n"),
        (Word::E, Answer::Evicted, "e\n"),
    ] {
        assert!(rt; tells(rt.alloc(), word, plain(answer), text), "{text}");
    }
}

#[test]
fn a_path_that_is_built(rt: HostRuntime) {
    let (from, to, nodes) = (20, 1_048_576, 2);
    let handled = Outcome {
        before: Some(14),
        drops: 0b1000_0000_0000_0101,
        built: Some(Built { from, to, nodes }),
        ..plain(Answer::Handled(F, Handled::Built))
    };
    let text = "c 14\ni 3 built\nd 1\nd 3\nd 16\nb 3 20 1048576 2\n";
    assert!(rt; tells(rt.alloc(), Word::I(F), handled, text));
}

#[test]
fn a_flush_behind_a_commit(rt: HostRuntime) {
    let reply = Reply {
        f: F,
        id: u64::MAX,
        end: End::Flushed(55),
        done: 0,
        request: Request::Flush,
    };
    let flushed = Outcome {
        before: Some(44),
        after: Some(55),
        reply: Some(reply),
        ..plain(Answer::Flushed(F))
    };
    let text = "c 44\nt 3 flush\nc 55\nr 3 18446744073709551615 flushed 55\n";
    assert!(rt; tells(rt.alloc(), Word::T, flushed, text));
}

#[test]
fn ends(rt: HostRuntime) {
    let mut sink = MemSink::new(rt.alloc(), Vec::new(rt.alloc()));
    for word in [Word::G(F), Word::H, Word::T, Word::I(F)] {
        assert!(rt; write_end(&mut sink, word).is_ok());
    }
    assert!(rt; write_done(&mut sink, u64::MAX).is_ok());
    let text = b"g 3 end\nh end\ndone 18446744073709551615\n";
    assert_eq!(rt; sink.bytes(), text.as_slice());
}
