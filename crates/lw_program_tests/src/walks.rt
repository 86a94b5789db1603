//! Walks by the top call.
use crate::calls::{Ended, end_of, words};
use lw_base::NoMemory;
use std::alloc::Global;
use std::sync::Wait;
use std::test::Fail;

const WALK: &str =
    "world 2 2 1\ngive 0 0\nshut 1 0\ngive 1 0\nfire 1 0\ndestroy 0 0\nfire 1 0\nsend 0 1\nend 1\nrun 1 0\nleave 1 0\nrun 1 0\narrive 1\nend 1\nsend 0 1\nsleep 1\n";

const ANSWER: &str =
    "1 ok\n2 ok\n3 refused 7\n4 refused 11\n5 ok\n6 ok\n7 ok\n8 refused 5\n9 ok\n10 ok\n11 refused 3\n12 ok\n13 ok\n14 refused 2\n15 ok\nthread 0 list 0\nthread 1 ended\npair 0 1 1 1\ndevice 0 fired 0\nreactor 0 awake\nreactor 1 asleep\n";

// The end of `walk` on a text, with one fault or none.
fn walk_of<R: Wait>(
    rt: &R,
    alloc: Global,
    text: &str,
    fails: (u64, u64),
) -> Result<Ended, NoMemory> {
    let bytes = String::from_str(alloc, text)?.into_bytes();
    end_of(
        rt,
        alloc,
        words(alloc, "walk")?.as_slice(),
        bytes,
        10,
        fails,
    )
}

// The line of a fault.
fn line_of(alloc: Global, ended: &Ended) -> Result<String, NoMemory> {
    match &ended.finish.fault {
        Some(fault) => format!(in alloc; "{fault}"),
        None => Ok(String::new(alloc)),
    }
}

#[test]
fn a_walk_is_answered(rt: HostRuntime) -> Result<(), Fail> {
    let ended = walk_of(&rt, rt.alloc(), WALK, (u64::MAX, u64::MAX))?;
    assert!(rt; ended.finish.status == 0 && ended.finish.told.is_none());
    assert!(rt; ended.written.as_slice() == ANSWER.as_bytes());
    Ok(())
}

#[test]
fn faults_of_a_walk_are_told(rt: HostRuntime) -> Result<(), Fail> {
    let unread = walk_of(&rt, rt.alloc(), WALK, (2, u64::MAX))?;
    assert!(rt; unread.finish.status == 3 && unread.written.is_empty());
    let unwritten = walk_of(&rt, rt.alloc(), WALK, (u64::MAX, 2))?;
    assert!(rt; unwritten.finish.status == 4 && unwritten.finish.told.is_none());
    assert!(rt;
        unwritten.written.len() == 20 && ANSWER.as_bytes().starts_with(unwritten.written.as_slice())
    );
    Ok(())
}

#[test]
fn the_first_bad_line_is_told(rt: HostRuntime) -> Result<(), Fail> {
    let alloc = rt.alloc();
    for (text, line) in [
        ("", "walk: line 1"),
        ("world 0 1 0\n", "walk: line 1"),
        ("world 82 1 0\n", "walk: line 1"),
        ("world 2 17 0\n", "walk: line 1"),
        ("world 2 2 17\n", "walk: line 1"),
        ("world 2 2 1\nsend 0 4294967296\n", "walk: line 2"),
        ("world 2 2 1\nsend 0 01\n", "walk: line 2"),
        ("world 2 2 1\nwake 0\nwake  0\nwake\n", "walk: line 3"),
        ("world 2 2 1\nwake 0", "walk: line 2"),
        ("world 2 2 1\n\n", "walk: line 2"),
    ] {
        let ended = walk_of(&rt, alloc, text, (u64::MAX, u64::MAX))?;
        assert!(rt; ended.finish.status == 2 && ended.written.is_empty());
        let told = line_of(alloc, &ended)?;
        assert!(rt; told.as_str() == line, "at {text}");
    }
    Ok(())
}

#[test]
fn a_walk_has_a_limit(rt: HostRuntime) -> Result<(), Fail> {
    let alloc = rt.alloc();
    let bytes = vec![in alloc; b'\n'; 16_777_217]?;
    let walk = words(alloc, "walk")?;
    let ended = end_of(
        &rt,
        alloc,
        walk.as_slice(),
        bytes,
        65536,
        (u64::MAX, u64::MAX),
    )?;
    let told = line_of(alloc, &ended)?;
    assert!(rt; ended.finish.status == 2 && told.as_str() == "walk: line 0");
    Ok(())
}
