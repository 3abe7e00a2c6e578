// Whole simulations, over a source and a sink in memory.

use rt_base::{ListSink, ListSource, Sink8, Source};
use rt_scripts::{Outcome, simulate_alone};
use std::alloc::{AllocError, Global};
use std::process::Abort;
use std::test::Fail;

/// A scenario of 26 bytes, whose root gives 7.
const SEVEN: &str = "script a\nend 7\ndone\nrun a\n";

/// The report's end where the root gave 7.
const SEVEN_END: &str = "finish ok\nresult ok 7\ntime 0\nrounds 1\ndigest 32ffd0c0\n";

const USAGE: &str = "usage: rt_sim run | gen N | load N | workers N\n";

/// The words of a command, which single spaces part.
fn words_of(alloc: Global, words: &str) -> Result<Vec<String>, AllocError> {
    let mut owned = Vec::new(alloc);
    for word in words.split_whitespace() {
        owned.push(word.to_owned(alloc)?)?;
    }
    Ok(owned)
}

/// The outcome for these words.
pub(crate) fn simulated<S: Source, K: Sink8>(
    alloc: Global,
    words: &str,
    source: &mut S,
    sink: &mut K,
) -> Result<Outcome, AllocError> {
    let words = words_of(alloc, words)?;
    Ok(simulate_alone(alloc, words.as_slice(), source, sink))
}

/// A source of this text.
pub(crate) fn source_of(alloc: Global, text: &str) -> Result<ListSource, AllocError> {
    let bytes = Vec::from_slice(alloc, text.as_bytes())?;
    Ok(ListSource::new(bytes, Vec::new(alloc), 1000))
}

/// A sink without a fault.
pub(crate) fn sink_of(alloc: Global) -> ListSink {
    ListSink::new(alloc, Vec::new(alloc), 1000)
}

/// A list of this call alone.
fn only(alloc: Global, call: u64) -> Result<Vec<u64>, AllocError> {
    vec![in alloc; call; 1]
}

/// Without a fault these words answer this status, and what is written ends so.
pub(crate) fn expect_end(
    rt: &impl Abort,
    alloc: Global,
    words: &str,
    input: &str,
    status: u8,
    end: &str,
) -> Result<(), Fail> {
    let mut source = source_of(alloc, input)?;
    let mut sink = sink_of(alloc);
    let outcome = simulated(alloc, words, &mut source, &mut sink)?;
    assert!(rt; outcome.status == status, "at {input}");
    assert!(rt; sink.as_slice().ends_with(end.as_bytes()), "at {input}");
    Ok(())
}

#[test]
fn cut_script(rt: HostRuntime) -> Result<(), Fail> {
    let alloc = rt.alloc();
    expect_end(&rt, alloc, "run", "script a\nend", 3, "error 2 cut\n")?;
    let last = "script a\nend 7\ndone\nrun a";
    expect_end(&rt, alloc, "run", last, 3, "error 4 cut\n")
}

#[test]
fn refused_words(rt: HostRuntime) -> Result<(), Fail> {
    let alloc = rt.alloc();
    for words in ["", "walk", "run run", "gen 7", "load 7", "workers 4"] {
        let mut source = source_of(alloc, SEVEN)?;
        let mut sink = sink_of(alloc);
        let outcome = simulated(alloc, words, &mut source, &mut sink)?;
        assert!(rt; outcome.status == 2, "at {words}");
        assert!(rt; sink.as_slice() == USAGE.as_bytes(), "at {words}");
    }
    Ok(())
}

/// The scenario of 26 bytes behind so many empty lines.
fn expect_behind(
    rt: &impl Abort,
    alloc: Global,
    lines: usize,
    status: u8,
    end: &str,
) -> Result<(), Fail> {
    let mut input = vec![in alloc; b'\n'; lines]?;
    input.extend_from_slice(SEVEN.as_bytes())?;
    let mut source = ListSource::new(input, Vec::new(alloc), 100_000);
    let mut sink = sink_of(alloc);
    let outcome = simulated(alloc, "run", &mut source, &mut sink)?;
    assert!(rt; outcome.status == status, "at {lines}");
    assert!(rt; sink.as_slice().ends_with(end.as_bytes()), "at {lines}");
    Ok(())
}

#[test]
fn longest_input(rt: HostRuntime) -> Result<(), Fail> {
    expect_behind(&rt, rt.alloc(), 1_048_550, 0, SEVEN_END)
}

#[test]
fn too_long(rt: HostRuntime) -> Result<(), Fail> {
    expect_behind(&rt, rt.alloc(), 1_048_551, 3, "error too long\n")
}

/// A scenario of so many sleeps.
fn sleeps(alloc: Global, count: usize) -> Result<String, AllocError> {
    let mut text = "script a\n".to_owned(alloc)?;
    for _ in 0..count {
        text.push_str("sleep 1\n")?;
    }
    text.push_str("end 7\ndone\nrun a\n")?;
    Ok(text)
}

#[test]
fn long_report(rt: HostRuntime) -> Result<(), Fail> {
    let alloc = rt.alloc();
    let mut source = source_of(alloc, sleeps(alloc, 10_000)?.as_str())?;
    let mut sink = sink_of(alloc);
    let outcome = simulated(alloc, "run", &mut source, &mut sink)?;
    assert!(rt; outcome.status == 0);
    assert!(rt; sink.as_slice().len() > 1_048_576);
    let end = "finish ok\nresult ok 7\ntime 10000000000\nrounds 10001\ndigest 0a7ca5fb\n";
    assert!(rt; sink.as_slice().ends_with(end.as_bytes()));
    Ok(())
}

/// Reads of ten bytes, of which this one fails: nothing is run or written.
fn expect_unread(rt: &impl Abort, alloc: Global, read: u64) -> Result<(), Fail> {
    let bytes = Vec::from_slice(alloc, SEVEN.as_bytes())?;
    let mut source = ListSource::new(bytes, only(alloc, read)?, 10);
    let mut sink = sink_of(alloc);
    let outcome = simulated(alloc, "run", &mut source, &mut sink)?;
    assert!(rt; outcome.status == 4, "at {read}");
    assert!(rt; outcome.journal.is_empty(), "at {read}");
    assert!(rt; sink.as_slice().is_empty(), "at {read}");
    Ok(())
}

#[test]
fn second_read_fails(rt: HostRuntime) -> Result<(), Fail> {
    expect_unread(&rt, rt.alloc(), 2)
}

#[test]
fn each_read_fails(rt: HostRuntime) -> Result<(), Fail> {
    for read in [1u64, 2, 3, 4] {
        expect_unread(&rt, rt.alloc(), read)?;
    }
    Ok(())
}

/// A write to this sink fails: this was written, and the journal has so many entries.
fn expect_unwritten(
    rt: &impl Abort,
    alloc: Global,
    words: &str,
    sink: &mut ListSink,
    written: &str,
    entries: usize,
) -> Result<(), Fail> {
    let mut source = source_of(alloc, SEVEN)?;
    let outcome = simulated(alloc, words, &mut source, sink)?;
    assert!(rt; outcome.status == 5, "at {written}");
    assert!(rt; outcome.journal.len() == entries, "at {written}");
    assert!(rt; sink.as_slice() == written.as_bytes(), "at {written}");
    Ok(())
}

#[test]
fn third_write_fails(rt: HostRuntime) -> Result<(), Fail> {
    let alloc = rt.alloc();
    let mut sink = ListSink::new(alloc, only(alloc, 3)?, 1);
    expect_unwritten(&rt, alloc, "run", &mut sink, "ru", 12)
}

#[test]
fn each_write_fails(rt: HostRuntime) -> Result<(), Fail> {
    let alloc = rt.alloc();
    for (word, write, written, entries) in [
        ("run", 1u64, "", 12usize),
        ("run", 2, "run a\nstar", 12),
        ("run", 3, "run a\nstart 0 - 1000", 12),
        ("walk", 1, "", 0),
        ("walk", 2, "usage: rt_", 0),
    ] {
        let mut sink = ListSink::new(alloc, only(alloc, write)?, 10);
        expect_unwritten(&rt, alloc, word, &mut sink, written, entries)?;
    }
    Ok(())
}
