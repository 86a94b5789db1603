//! Faults of the source and of the sink, and the lines of what is refused.
use crate::calls::{FIRST, REPORT, end_of, run_of, words};
use lw_base::NoMemory;
use std::alloc::Global;
use std::sync::Wait;
use std::test::Fail;

#[test]
fn a_source_may_fail_at_each_call(rt: HostRuntime) -> Result<(), Fail> {
    let alloc = rt.alloc();
    let run = words(alloc, "run")?;
    for call in 0..=FIRST.len() {
        let bytes = String::from_str(alloc, FIRST)?.into_bytes();
        let unread = end_of(
            &rt,
            alloc,
            run.as_slice(),
            bytes,
            1,
            (call as u64, u64::MAX),
        )?;
        assert!(rt;
            unread.finish.status == 3 && unread.finish.told.is_none(),
            "at {call}"
        );
        assert!(rt; unread.written.is_empty());
    }
    Ok(())
}

#[test]
fn a_sink_may_fail_at_each_call(rt: HostRuntime) -> Result<(), Fail> {
    let alloc = rt.alloc();
    let run = words(alloc, "run")?;
    for call in 0..REPORT.len() {
        let bytes = String::from_str(alloc, FIRST)?.into_bytes();
        let ended = end_of(
            &rt,
            alloc,
            run.as_slice(),
            bytes,
            10,
            (u64::MAX, call as u64),
        )?;
        let written = ended.written.len();
        if ended.finish.status == 0 {
            assert!(rt; ended.written.as_slice() == REPORT.as_bytes());
            assert!(rt; call == REPORT.len().div_ceil(10));
            return Ok(());
        }
        assert!(rt;
            ended.finish.status == 4 && ended.finish.told.is_some(),
            "at {call}"
        );
        assert!(rt; written / 10 == call && written % 10 == 0);
        assert!(rt; REPORT.as_bytes().starts_with(ended.written.as_slice()));
    }
    Ok(())
}

// The line of a refused script.
fn line_of<R: Wait>(rt: &R, alloc: Global, text: &str) -> Result<String, NoMemory> {
    let ended = run_of(rt, alloc, text, 8192)?;
    match &ended.finish.fault {
        Some(fault) => format!(in alloc; "{} {}", ended.finish.status, fault),
        None => Ok(String::new(alloc)),
    }
}

#[test]
fn refusals_have_their_lines(rt: HostRuntime) -> Result<(), Fail> {
    let alloc = rt.alloc();
    for (text, line) in [
        ("", "2 script: not JSON"),
        ("{}", "2 script: shape 1"),
        (
            "{\"version\":1,\"images\":[{\"name\":\"m\",\"block\":16,\"blocks\":4}],\"clients\":[{\"name\":\"a\",\"depth\":4,\"ops\":[[\"get\",\"m\"],[\"flush\",\"m\"]]}],\"pool\":{\"small\":4,\"large\":1}}",
            "2 script: not built",
        ),
        (
            "{\"version\":1,\"images\":[{\"name\":\"m\",\"block\":16,\"blocks\":4}],\"clients\":[{\"name\":\"a\",\"depth\":4,\"ops\":[]},{\"name\":\"b\",\"depth\":4,\"ops\":[]}],\"pool\":{\"small\":4,\"large\":1}}",
            "2 script: not built",
        ),
    ] {
        let told = line_of(&rt, alloc, text)?;
        assert!(rt; told.as_str() == line, "at {text}");
    }
    Ok(())
}

// A script of so many spaces.
fn line_of_spaces<R: Wait>(rt: &R, alloc: Global, count: usize) -> Result<String, NoMemory> {
    let spaces = vec![in alloc; b' '; count]?;
    let run = words(alloc, "run")?;
    let ended = end_of(
        rt,
        alloc,
        run.as_slice(),
        spaces,
        65536,
        (u64::MAX, u64::MAX),
    )?;
    match &ended.finish.fault {
        Some(fault) => format!(in alloc; "{}", fault),
        None => Ok(String::new(alloc)),
    }
}

#[test]
fn a_script_has_a_limit(rt: HostRuntime) -> Result<(), Fail> {
    let alloc = rt.alloc();
    assert!(rt; line_of_spaces(&rt, alloc, 16_777_216)?.as_str() == "script: not JSON");
    assert!(rt; line_of_spaces(&rt, alloc, 16_777_217)?.as_str() == "script: too long");
    Ok(())
}

#[test]
fn a_source_is_read_to_its_end_and_no_further(rt: HostRuntime) -> Result<(), Fail> {
    let alloc = rt.alloc();
    for piece in [1usize, 10, 8192] {
        if piece >= 1 {
            let ended = run_of(&rt, alloc, FIRST, piece)?;
            let pieces = FIRST.len().div_ceil(piece);
            assert!(rt;
                ended.reads == (pieces as u64).saturating_add(1),
                "in pieces of {piece}"
            );
            let refused = run_of(&rt, alloc, "{}", piece)?;
            assert!(rt; refused.reads == (2usize.div_ceil(piece) as u64).saturating_add(1));
        }
    }
    Ok(())
}
