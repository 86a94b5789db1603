//! Judgements of reports by the top call.
use crate::calls::{Ended, FIRST, REPORT, end_of, run_of, words};
use crate::runs::run_many;
use lw_base::NoMemory;
use std::alloc::Global;
use std::sync::Wait;
use std::test::Fail;

const LAWFUL: &str = "lawful\n";

// The end of `check` on bytes, with one fault or none.
fn check_of<R: Wait>(
    rt: &R,
    alloc: Global,
    bytes: Vec<u8>,
    fails: (u64, u64),
) -> Result<Ended, NoMemory> {
    end_of(
        rt,
        alloc,
        words(alloc, "check")?.as_slice(),
        bytes,
        3,
        fails,
    )
}

// The status, the line of the fault and the text of `check`, where one text of the first report is another.
fn judged<R: Wait>(rt: &R, alloc: Global, from: &str, to: &str) -> Result<String, NoMemory> {
    let report = REPORT.replacen(alloc, from, to, 1)?;
    let ended = check_of(rt, alloc, report.into_bytes(), (u64::MAX, u64::MAX))?;
    let status = ended.finish.status;
    match &ended.finish.fault {
        Some(fault) => format!(in alloc; "{status} {fault}"),
        None => {
            let text = text_of(alloc, ended.written);
            format!(in alloc; "{status} {text}")
        }
    }
}

fn text_of(alloc: Global, bytes: Vec<u8>) -> String {
    match String::from_utf8(bytes) {
        Ok(text) => text,
        Err(_) => String::new(alloc),
    }
}

#[test]
fn the_report_of_a_run_is_lawful(rt: HostRuntime) -> Result<(), Fail> {
    let run = run_of(&rt, rt.alloc(), FIRST, 100)?;
    let ended = check_of(&rt, rt.alloc(), run.written, (u64::MAX, u64::MAX))?;
    assert!(rt; ended.finish.status == 0 && ended.finish.told.is_none());
    assert!(rt; ended.written.as_slice() == LAWFUL.as_bytes());
    Ok(())
}

#[test]
fn reports_of_runs_are_lawful(rt: HostRuntime) -> Result<(), Fail> {
    let alloc = rt.alloc();
    for (depth, ops, times, last) in [
        ("\"depth\":4", "", 0u32, ""),
        ("\"depth\":4", "[\"put\",\"m\"]", 1, ""),
        ("\"depth\":1", "[\"read\",\"m\",0,1]", 20, ""),
        (
            "\"depth\":32",
            "[\"write\",\"m\",0,1,\"ab\"]",
            40,
            ",[\"put\",\"m\"]",
        ),
        (
            "\"depth\":8",
            "[\"write\",\"m\",0,1,\"aa\"],[\"read\",\"m\",0,1]",
            9,
            "",
        ),
        (
            "\"depth\":8",
            "[\"write\",\"m\",1,1,\"aabbcc\"],[\"read\",\"m\",0,3]",
            5,
            ",[\"put\",\"m\"]",
        ),
        (
            "\"depth\":8",
            "[\"put\",\"m\"],[\"get\",\"m\"]",
            33,
            ",[\"put\",\"m\"]",
        ),
        (
            "\"depth\":2",
            "[\"get\",\"m\"],[\"write\",\"m\",3,1,\"01\"],[\"put\",\"m\"]",
            12,
            "",
        ),
        (
            "\"depth\":3",
            "[\"get\",\"m\"]",
            7,
            ",[\"put\",\"m\"],[\"read\",\"m\",0,4]",
        ),
        (
            "\"depth\":5",
            "[\"put\",\"m\"],[\"read\",\"m\",0,1]",
            6,
            ",[\"get\",\"m\"]",
        ),
        (
            "\"depth\":31",
            "[\"read\",\"m\",0,4],[\"write\",\"m\",0,4,\"00112233445566778899\"],[\"put\",\"m\"],[\"get\",\"m\"]",
            25,
            ",[\"put\",\"m\"]",
        ),
    ] {
        let run = run_many(&rt, alloc, depth, ops, times, last)?;
        assert!(rt; run.finish.status == 0, "at {ops}");
        let ended = check_of(&rt, alloc, run.written, (u64::MAX, u64::MAX))?;
        assert!(rt; ended.finish.status == 0, "at {ops}");
        assert!(rt; ended.written.as_slice() == LAWFUL.as_bytes());
    }
    Ok(())
}

#[test]
fn the_first_bad_line_is_of_clause_0(rt: HostRuntime) -> Result<(), Fail> {
    for (from, to, line) in [
        (REPORT, "", "6 unlawful: clause 0 line 1"),
        ("report 1", "report 2", "6 unlawful: clause 0 line 1"),
        ("static", "dynamic", "6 unlawful: clause 0 line 34"),
        ("reactors 1", "reactors 17", "6 unlawful: clause 0 line 3"),
        ("op put 0\n", "op put 1\n", "6 unlawful: clause 0 line 14"),
        (
            "ran 1 0 done",
            "ran 1 00 done",
            "6 unlawful: clause 0 line 15",
        ),
        ("end\n", "", "6 unlawful: clause 0 line 35"),
        ("end\n", "end", "6 unlawful: clause 0 line 35"),
        ("end\n", "end\n\n", "6 unlawful: clause 0 line 36"),
    ] {
        let told = judged(&rt, rt.alloc(), from, to)?;
        assert!(rt; told.as_str() == line, "at {to}");
    }
    Ok(())
}

#[test]
fn the_first_rule_that_fails_is_told(rt: HostRuntime) -> Result<(), Fail> {
    for (from, to, line) in [
        ("lightrun", "lightrun", "0 lawful\n"),
        (
            "thread 2 owner 0",
            "thread 2 owner 1",
            "6 unlawful: clause 1 line 29",
        ),
        (
            "ran 2 0 reply 1\nran 2 1 reply 2\n",
            "ran 2 1 reply 2\nran 2 0 reply 1\n",
            "6 unlawful: clause 2 line 19",
        ),
        (
            "did 2 3 deferred",
            "did 1 3 deferred",
            "6 unlawful: clause 3 line 25",
        ),
        ("did 2 4 closed\n", "", "6 unlawful: clause 3 line 18"),
        (
            "ran 2 0 reply 1\nran 2 1 reply 2\n",
            "ran 2 0 reply 2\nran 2 1 reply 1\n",
            "6 unlawful: clause 4 line 19",
        ),
        ("ran 0 0 stop\n", "", "6 unlawful: clause 4 line 29"),
        ("bytes ab", "bytes ac", "6 unlawful: clause 5 line 28"),
        (
            "device 0 1 0 1",
            "device 0 2 0 1",
            "6 unlawful: clause 6 line 33",
        ),
        ("home 4 1", "home 3 1", "6 unlawful: clause 9 line 34"),
    ] {
        let told = judged(&rt, rt.alloc(), from, to)?;
        assert!(rt; told.as_str() == line, "at {to}");
    }
    Ok(())
}

#[test]
fn a_source_may_fail(rt: HostRuntime) -> Result<(), Fail> {
    let alloc = rt.alloc();
    for call in [0u64, 1, 100] {
        let bytes = String::from_str(alloc, REPORT)?.into_bytes();
        let unread = check_of(&rt, alloc, bytes, (call, u64::MAX))?;
        assert!(rt;
            unread.finish.status == 3 && unread.written.is_empty(),
            "at {call}"
        );
    }
    Ok(())
}

#[test]
fn a_sink_may_fail(rt: HostRuntime) -> Result<(), Fail> {
    let alloc = rt.alloc();
    for (call, taken) in [(0u64, 0usize), (1, 3), (2, 6)] {
        let bytes = String::from_str(alloc, REPORT)?.into_bytes();
        let unwritten = check_of(&rt, alloc, bytes, (u64::MAX, call))?;
        assert!(rt; unwritten.finish.status == 4 && unwritten.finish.told.is_none());
        assert!(rt; unwritten.written.len() == taken, "at {call}");
        assert!(rt; LAWFUL.as_bytes().starts_with(unwritten.written.as_slice()));
    }
    Ok(())
}
