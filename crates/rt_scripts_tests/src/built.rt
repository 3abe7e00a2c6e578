// Simulations of scenarios that are built, and of one scenario under two seeds.

use crate::simulations::{expect_end, simulated, sink_of, source_of};
use std::alloc::{AllocError, Global};
use std::str;
use std::test::Fail;

/// A scenario of so many scripts, each of which spawns the one before it and is left pending. The root aborts the last,
/// joins it, and gives what that left.
fn chain(alloc: Global, scripts: u64) -> Result<String, AllocError> {
    let mut text = "script s0\npend\ndone\n".to_owned(alloc)?;
    for script in 1..scripts {
        let lines = format!(in alloc; "script s{script}\nspawn a s{}\npend\ndone\n", script - 1)?;
        text.push_str(lines.as_str())?;
    }
    let last = scripts.saturating_sub(1);
    let lines = format!(in alloc;
        "script main\nspawn a s{last}\nsleep 2000000000\nabort a\njoin a\nend last\ndone\nrun main\n"
    )?;
    text.push_str(lines.as_str())?;
    Ok(text)
}

#[test]
fn chain_ends_at_once(rt: HostRuntime) -> Result<(), Fail> {
    let alloc = rt.alloc();
    let end = "finish ok\nresult ok -2\ntime 2002000000\nrounds 1004\ndigest d04786e4\n";
    expect_end(&rt, alloc, "run", chain(alloc, 1_000)?.as_str(), 0, end)
}

/// The report of tasks that wake themselves, under this seed.
fn report_under(alloc: Global, seed: u64) -> Result<Vec<u8>, Fail> {
    let input = format!(in alloc;
        "seed {seed}\nscript a\nyield\nyield\nyield\nend 1\ndone\nscript main\nyield\nyield\nend 2\ndone\nrun main with a a a a\n"
    )?;
    let mut source = source_of(alloc, input.as_str())?;
    let mut sink = sink_of(alloc);
    simulated(alloc, "run", &mut source, &mut sink)?;
    Ok(sink.as_slice().to_vec(alloc)?)
}

#[test]
fn equal_seeds_equal_reports(rt: HostRuntime) -> Result<(), Fail> {
    let one = report_under(rt.alloc(), 18446744073709551615)?;
    let two = report_under(rt.alloc(), 18446744073709551615)?;
    assert!(rt; one.as_slice() == two.as_slice());
    Ok(())
}

/// The lines of that report's rounds.
fn rounds_under(alloc: Global, seed: u64) -> Result<String, Fail> {
    let report = report_under(alloc, seed)?;
    let mut rounds = String::new(alloc);
    for line in str::from_utf8(report.as_slice()).unwrap_or("").lines() {
        if line.starts_with("round ") {
            rounds.push_str(line)?;
            rounds.push_str("\n")?;
        }
    }
    Ok(rounds)
}

#[test]
fn another_seed_another_order(rt: HostRuntime) -> Result<(), Fail> {
    let one = rounds_under(rt.alloc(), 1)?;
    let two = rounds_under(rt.alloc(), 2)?;
    assert!(rt; one.as_str().starts_with("round ") && one.as_str() != two.as_str());
    Ok(())
}
