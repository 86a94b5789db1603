//! The words of the command line.
use crate::calls::{end_of, words};
use lw_base::NoMemory;
use std::alloc::Global;
use std::sync::Wait;
use std::test::Fail;

// The status of words over a source of no bytes.
fn status_of<R: Wait>(rt: &R, alloc: Global, line: &str) -> Result<u8, NoMemory> {
    let words = words(alloc, line)?;
    let ended = end_of(
        rt,
        alloc,
        words.as_slice(),
        Vec::new(alloc),
        1,
        (u64::MAX, u64::MAX),
    )?;
    Ok(ended.finish.status)
}

#[test]
fn the_words_of_the_table_are_commands(rt: HostRuntime) -> Result<(), Fail> {
    for line in [
        "run",
        "run --period 5",
        "run --period=5",
        "run --period 00000000000000000005",
        "run --period 1000000000000",
        "run --scheduler static --reactors 01 --beside=000 --period 1",
        "run --beside 0 --reactors=1 --scheduler=static",
    ] {
        assert_eq!(rt; status_of(&rt, rt.alloc(), line)?, 2, "{line}");
    }
    Ok(())
}

#[test]
fn other_words_are_usage(rt: HostRuntime) -> Result<(), Fail> {
    let alloc = rt.alloc();
    for line in [
        "",
        "Run",
        "walk 1",
        "walk walk",
        "walk --period 5",
        "Walk",
        "check 1",
        "check check",
        "check --period 5",
        "check --",
        "Check",
        "load 7 7",
        "help",
        "--help",
        "--version",
        "--period 5 run",
        "run run",
        "run help",
        "run --help",
        "run --version",
        "run -h",
        "run -p 5",
        "run --",
        "run --period 5 --",
        "run -- --period 5",
        "run --period",
        "run --period=",
        "run --period ",
        "run --period --reactors 1",
        "run --period --",
        "run --period -5",
        "run --period +5",
        "run --period 5x",
        "run --period 5 5",
        "run --period=5=5",
        "run --peri 5",
        "run --period 5 --period 5",
        "run --reactors 1 --reactors=1",
        "run --scheduler static --scheduler static",
        "run --period 0",
        "run --period 1000000000001",
        "run --period 000000000000000000005",
        "run --period 99999999999999999999",
        "run --scheduler",
        "run --scheduler Static",
        "run --reactors 0",
        "run --reactors 17",
        "run --beside 1",
    ] {
        assert_eq!(rt; status_of(&rt, alloc, line)?, 1, "{line}");
    }
    let none = end_of(&rt, alloc, &[], Vec::new(alloc), 1, (0, 0))?;
    assert!(rt; none.finish.status == 1 && none.written.is_empty());
    Ok(())
}

#[test]
fn words_that_are_not_served_yet_are_usage(rt: HostRuntime) -> Result<(), Fail> {
    for line in [
        "run --scheduler dynamic",
        "run --reactors 2",
        "run --reactors=2 --beside 1",
    ] {
        assert_eq!(rt; status_of(&rt, rt.alloc(), line)?, 1, "{line}");
    }
    Ok(())
}
