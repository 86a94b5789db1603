//! Whole reports of runs: the worked examples, and runs by the ops of one client on an image of four blocks of 16 bytes.
use crate::calls::{Ended, FIRST, REPORT, end_of, run_of, words};
use lw_base::NoMemory;
use std::alloc::Global;
use std::sync::Wait;
use std::test::Fail;

// A pattern of three bytes over two blocks, in digits of both cases, read from its second block on, at depth 1.
const SECOND: &str =
    "{\"version\":1,\"images\":[{\"name\":\"m\",\"block\":16,\"blocks\":8}],\"clients\":[{\"name\":\"a\",\"depth\":1,\"ops\":[[\"get\",\"m\"],[\"write\",\"m\",1,2,\"0aFF01\"],[\"read\",\"m\",2,2],[\"put\",\"m\"]]}],\"pool\":{\"small\":4,\"large\":1}}";

const SECOND_REPORT: &str =
    "lightrun report 1\nscheduler static\nreactors 1\nperiod 1000000\npool 4 1\nimages 1\nimage m 16 8\nclients 1\nclient a 1 4\nop get 0\nop write 0 1 2 0aff01\nop read 0 2 2\nop put 0\nthread 0 app 0\nran 1 0 done\ndid 1 0 began 1\ncalled 1 0\nthread 1 client 0\nran 2 0 reply 1\nran 2 1 reply 2\nran 1 0 putself 0\ndid 0 0 given 0\ndid 0 1 sent\ndid 1 2 sent\ndid 2 3 deferred\ndid 2 4 closed\nreply 1 ok\nreply 2 bytes ff010aff010aff010aff010aff010aff00000000000000000000000000000000\nthread 2 owner 0\nran 1 0 request 1\nran 1 1 request 2\nran 0 0 stop\ndevice 0 1 0 1\nhome 4 1\nend\n";

const FIRST_OPS: &str =
    "[\"get\",\"m\"],[\"write\",\"m\",0,1,\"ab\"],[\"read\",\"m\",0,1],[\"put\",\"m\"]";

const HEAD: &str =
    "lightrun report 1\nscheduler static\nreactors 1\nperiod 1000000\npool 4 1\nimages 1\nimage m 16 4\nclients 1\n";

#[test]
fn reports_are_whole(rt: HostRuntime) -> Result<(), Fail> {
    let alloc = rt.alloc();
    for (ops, rest) in [
        (
            "",
            "client a 4 0\nthread 0 app 0\nran 1 0 done\ndid 1 0 began 0\ncalled 1 0\nthread 1 client 0\ndid 0 0 closed\nthread 2 owner 0\nran 0 0 stop\ndevice 0 0 0 1\nhome 4 1\nend\n",
        ),
        (
            "[\"read\",\"m\",0,1]",
            "client a 4 1\nop read 0 0 1\nthread 0 app 0\nran 1 0 done\ndid 1 0 began 0\ncalled 1 0\nthread 1 client 0\ndid 0 0 nochannel\ndid 0 1 closed\nthread 2 owner 0\nran 0 0 stop\ndevice 0 0 0 1\nhome 4 1\nend\n",
        ),
        (
            "[\"get\",\"m\"],[\"get\",\"m\"],[\"put\",\"m\"],[\"read\",\"m\",0,1],[\"put\",\"m\"]",
            "client a 4 5\nop get 0\nop get 0\nop put 0\nop read 0 0 1\nop put 0\nthread 0 app 0\nran 1 0 done\ndid 1 0 began 1\ncalled 1 0\nthread 1 client 0\nran 2 0 reply 3\nran 1 0 putself 0\ndid 0 0 given 0\ndid 0 1 again 0\ndid 0 2 counted\ndid 0 3 sent\ndid 1 4 deferred\ndid 1 5 closed\nreply 3 bytes 00000000000000000000000000000000\nthread 2 owner 0\nran 1 0 request 3\nran 0 0 stop\ndevice 0 1 0 1\nhome 4 1\nend\n",
        ),
        (
            "[\"get\",\"m\"],[\"put\",\"m\"],[\"get\",\"m\"],[\"read\",\"m\",0,1]",
            "client a 4 4\nop get 0\nop put 0\nop get 0\nop read 0 0 1\nthread 0 app 0\nran 1 0 done\ndid 1 0 began 1\ncalled 1 0\nthread 1 client 0\nran 1 0 putself 0\nran 2 0 reply 3\nran 1 1 putself 0\ndid 0 0 given 0\ndid 0 1 deferred\ndid 0 2 again 0\ndid 0 3 sent\ndid 2 4 closed\nreply 3 bytes 00000000000000000000000000000000\nthread 2 owner 0\nran 1 0 request 3\nran 0 0 stop\ndevice 0 1 0 1\nhome 4 1\nend\n",
        ),
    ] {
        let script = FIRST.replacen(alloc, FIRST_OPS, ops, 1)?;
        let ended = run_of(&rt, alloc, script.as_str(), 100)?;
        let written = ended.written.as_slice();
        assert!(rt; ended.finish.status == 0 && written.starts_with(HEAD.as_bytes()));
        assert!(rt;
            written.ends_with(rest.as_bytes())
                && written.len() == HEAD.len().saturating_add(rest.len())
        );
    }
    Ok(())
}

// The run of a get, some ops so many times, and some last ones, at a depth.
pub(crate) fn run_many<R: Wait>(
    rt: &R,
    alloc: Global,
    depth: &str,
    ops: &str,
    times: u32,
    last: &str,
) -> Result<Ended, NoMemory> {
    let mut all = String::from_str(alloc, "[\"get\",\"m\"]")?;
    for _ in 0..times {
        all.push(',')?;
        all.push_str(ops)?;
    }
    all.push_str(last)?;
    let script = FIRST.replacen(alloc, FIRST_OPS, all.as_str(), 1)?;
    let script = script.replacen(alloc, "\"depth\":4", depth, 1)?;
    run_of(rt, alloc, script.as_str(), 4096)
}

// Whether a run was done, and its report has these lines one after the other.
fn reports(ended: Ended, lines: &str) -> bool {
    match String::from_utf8(ended.written) {
        Ok(text) => ended.finish.status == 0 && text.contains(lines),
        Err(_) => false,
    }
}

#[test]
fn many_ops_are_run(rt: HostRuntime) -> Result<(), Fail> {
    let alloc = rt.alloc();
    for (depth, ops, times, last, lines) in [
        (
            "\"depth\":1",
            "[\"read\",\"m\",0,1]",
            20u32,
            "",
            "did 18 19 sent\ndid 19 20 sent\ndid 20 21 closed\nreply 1 bytes 00000000000000000000000000000000\n",
        ),
        (
            "\"depth\":32",
            "[\"write\",\"m\",0,1,\"ab\"]",
            40,
            ",[\"put\",\"m\"]",
            "did 31 39 sent\ndid 39 40 sent\ndid 40 41 deferred\ndid 40 42 closed\nreply 1 ok\n",
        ),
        (
            "\"depth\":8",
            "[\"write\",\"m\",0,1,\"aa\"],[\"read\",\"m\",0,1],[\"write\",\"m\",0,1,\"bb\"],[\"read\",\"m\",0,1]",
            1,
            "",
            "reply 1 ok\nreply 2 bytes aaaaaaaaaaaaaaaaaaaaaaaaaaaaaaaa\nreply 3 ok\nreply 4 bytes bbbbbbbbbbbbbbbbbbbbbbbbbbbbbbbb\nthread 2",
        ),
        (
            "\"depth\":8",
            "[\"write\",\"m\",1,1,\"aa\"],[\"read\",\"m\",0,3]",
            1,
            "",
            "reply 2 bytes 00000000000000000000000000000000aaaaaaaaaaaaaaaaaaaaaaaaaaaaaaaa00000000000000000000000000000000\n",
        ),
        (
            "\"depth\":8",
            "[\"put\",\"m\"],[\"get\",\"m\"]",
            499,
            ",[\"put\",\"m\"]",
            "did 496 998 again 124\ndid 496 999 deferred\ndid 496 1000 closed\nthread 2 owner 0\nran 0 0 stop\ndevice 0 125 0 1\n",
        ),
        (
            "\"depth\":8",
            "[\"write\",\"m\",1,1,\"aa\"],[\"read\",\"m\",1,1]",
            499,
            ",[\"put\",\"m\"]",
            "did 991 998 sent\ndid 998 999 deferred\ndid 998 1000 closed\nreply 1 ok\n",
        ),
    ] {
        let ended = run_many(&rt, alloc, depth, ops, times, last)?;
        assert!(rt; reports(ended, lines), "at {lines}");
    }
    Ok(())
}

// Reads of 8,192 and of 12,288 bytes, each of which goes through a buffer of another class.
const LONG: &str =
    "{\"version\":1,\"images\":[{\"name\":\"m\",\"block\":4096,\"blocks\":4}],\"clients\":[{\"name\":\"a\",\"depth\":8,\"ops\":[[\"get\",\"m\"],[\"write\",\"m\",0,1,\"ab\"],[\"write\",\"m\",1,2,\"cd\"],[\"read\",\"m\",0,2],[\"read\",\"m\",0,3],[\"put\",\"m\"]]}],\"pool\":{\"small\":4,\"large\":1}}";

#[test]
fn long_reads_are_answered(rt: HostRuntime) -> Result<(), Fail> {
    let alloc = rt.alloc();
    let first = "ab".repeat(alloc, 4096)?;
    let second = "cd".repeat(alloc, 4096)?;
    let mut lines = String::from_str(alloc, "reply 1 ok\nreply 2 ok\nreply 3 bytes ")?;
    for block in [
        first.as_str(),
        second.as_str(),
        "\nreply 4 bytes ",
        first.as_str(),
        second.as_str(),
        second.as_str(),
        "\nthread 2",
    ] {
        lines.push_str(block)?;
    }
    let ended = run_of(&rt, alloc, LONG, 4096)?;
    assert!(rt; reports(ended, lines.as_str()));
    Ok(())
}

#[test]
fn the_first_script_is_reported(rt: HostRuntime) -> Result<(), Fail> {
    for piece in [1usize, 10, 8192] {
        if piece >= 1 {
            let ended = run_of(&rt, rt.alloc(), FIRST, piece)?;
            assert!(rt; ended.finish.status == 0 && ended.finish.told.is_some());
            assert!(rt; ended.written.as_slice() == REPORT.as_bytes());
        }
    }
    Ok(())
}

#[test]
fn a_pattern_goes_on_over_blocks(rt: HostRuntime) -> Result<(), Fail> {
    let ended = run_of(&rt, rt.alloc(), SECOND, 100)?;
    assert!(rt; ended.finish.status == 0);
    assert!(rt; ended.written.as_slice() == SECOND_REPORT.as_bytes());
    Ok(())
}

#[test]
fn the_report_has_the_period_of_the_words(rt: HostRuntime) -> Result<(), Fail> {
    let alloc = rt.alloc();
    let run = words(alloc, "run --period 0000777")?;
    let bytes = String::from_str(alloc, FIRST)?.into_bytes();
    let ended = end_of(
        &rt,
        alloc,
        run.as_slice(),
        bytes,
        8192,
        (u64::MAX, u64::MAX),
    )?;
    let front = "lightrun report 1\nscheduler static\nreactors 1\nperiod 777\npool 4 1\n";
    assert!(rt; ended.finish.status == 0);
    assert!(rt; ended.written.as_slice().starts_with(front.as_bytes()));
    Ok(())
}
