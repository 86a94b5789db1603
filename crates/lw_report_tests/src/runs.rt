//! Runs of one client on an image `m` of four blocks of 16 bytes: what each thread ran and did, worked out by hand from
//! docs/threads.md.
ghost use Rattle.std.specs.Prelude.{◌≡◌};
ghost use Rattle.lw_target.specs.Options.{AreServed};

use lw_model::Scheduler;
use lw_report_print::print;
use lw_script::{ScriptRefusal, read_script};
use lw_target::{Options, run_script};
use std::alloc::{AllocError, Global};
use std::str;
use std::sync::Wait;
use std::test::Fail;

// One reactor, which the caller turns.
fn caller_alone() -> Options
    ensures { AreServed result }
{
    Options {
        scheduler: Scheduler::Static,
        reactors: 1,
        beside: 0,
        period: 1_000_000,
    }
}

// The report of the run of a script, from its bytes.
fn run<R: Wait>(rt: &R, alloc: Global, bytes: &[u8]) -> Result<Vec<u8>, ScriptRefusal> {
    let script = read_script(alloc, bytes)?;
    match run_script(rt, alloc, script, caller_alone()) {
        Ok(record) => match print(alloc, &record) {
            Ok(report) => Ok(report),
            Err(_) => Err(ScriptRefusal::NoMemory),
        },
        Err(_) => Err(ScriptRefusal::NoMemory),
    }
}

// The script of a client of this depth with these ops.
fn script(alloc: Global, depth: u32, ops: &str) -> Result<String, AllocError> {
    format!(in alloc;
        "{{\"version\":1,\"images\":[{{\"name\":\"m\",\"block\":16,\"blocks\":4}}],\"clients\":[{{\"name\":\"a\",\"depth\":{depth},\"ops\":[{ops}]}}],\"pool\":{{\"small\":4,\"large\":1}}}}"
    )
}

#[test]
fn each_thread_runs_and_does_what_the_ops_ask(rt: HostRuntime) -> Result<(), Fail> {
    let alloc = rt.alloc();
    let cases = [
        // a client without ops still closes
        (
            1,
            r#""#,
            "thread 0 app 0\nran 1 0 done\ndid 1 0 began 0\ncalled 1 0\nthread 1 client 0\ndid 0 0 closed\nthread 2 owner 0\nran 0 0 stop\ndevice 0 0 0 1\nhome 4 1\nend\n",
        ),
        // a write is read back
        (
            4,
            r#"["get","m"],["write","m",0,1,"ab"],["read","m",0,1],["put","m"]"#,
            "thread 0 app 0\nran 1 0 done\ndid 1 0 began 1\ncalled 1 0\nthread 1 client 0\nran 2 0 reply 1\nran 2 1 reply 2\nran 1 0 putself 0\ndid 0 0 given 0\ndid 0 1 sent\ndid 0 2 sent\ndid 2 3 deferred\ndid 2 4 closed\nreply 1 ok\nreply 2 bytes abababababababababababababababab\nthread 2 owner 0\nran 1 0 request 1\nran 1 1 request 2\nran 0 0 stop\ndevice 0 1 0 1\nhome 4 1\nend\n",
        ),
        // a pattern is repeated over the range
        (
            4,
            r#"["get","m"],["write","m",0,1,"010203"],["read","m",0,1]"#,
            "thread 0 app 0\nran 1 0 done\ndid 1 0 began 1\ncalled 1 0\nthread 1 client 0\nran 2 0 reply 1\nran 2 1 reply 2\nran 1 0 putself 0\ndid 0 0 given 0\ndid 0 1 sent\ndid 0 2 sent\ndid 2 3 closed\nreply 1 ok\nreply 2 bytes 01020301020301020301020301020301\nthread 2 owner 0\nran 1 0 request 1\nran 1 1 request 2\nran 0 0 stop\ndevice 0 1 0 1\nhome 4 1\nend\n",
        ),
        // a read without a channel sends nothing
        (
            4,
            r#"["read","m",0,1]"#,
            "thread 0 app 0\nran 1 0 done\ndid 1 0 began 0\ncalled 1 0\nthread 1 client 0\ndid 0 0 nochannel\ndid 0 1 closed\nthread 2 owner 0\nran 0 0 stop\ndevice 0 0 0 1\nhome 4 1\nend\n",
        ),
        // the last put waits for the reply
        (
            4,
            r#"["get","m"],["get","m"],["put","m"],["read","m",0,1],["put","m"]"#,
            "thread 0 app 0\nran 1 0 done\ndid 1 0 began 1\ncalled 1 0\nthread 1 client 0\nran 2 0 reply 3\nran 1 0 putself 0\ndid 0 0 given 0\ndid 0 1 again 0\ndid 0 2 counted\ndid 0 3 sent\ndid 1 4 deferred\ndid 1 5 closed\nreply 3 bytes 00000000000000000000000000000000\nthread 2 owner 0\nran 1 0 request 3\nran 0 0 stop\ndevice 0 1 0 1\nhome 4 1\nend\n",
        ),
        // a get keeps a channel whose put is on its way
        (
            4,
            r#"["get","m"],["put","m"],["get","m"],["read","m",0,1]"#,
            "thread 0 app 0\nran 1 0 done\ndid 1 0 began 1\ncalled 1 0\nthread 1 client 0\nran 1 0 putself 0\nran 2 0 reply 3\nran 1 1 putself 0\ndid 0 0 given 0\ndid 0 1 deferred\ndid 0 2 again 0\ndid 0 3 sent\ndid 2 4 closed\nreply 3 bytes 00000000000000000000000000000000\nthread 2 owner 0\nran 1 0 request 3\nran 0 0 stop\ndevice 0 1 0 1\nhome 4 1\nend\n",
        ),
        // at depth 1 each request waits for the one before
        (
            1,
            r#"["get","m"],["write","m",0,1,"aa"],["write","m",0,1,"bb"],["read","m",0,1]"#,
            "thread 0 app 0\nran 1 0 done\ndid 1 0 began 1\ncalled 1 0\nthread 1 client 0\nran 2 0 reply 1\nran 2 1 reply 2\nran 2 2 reply 3\nran 1 0 putself 0\ndid 0 0 given 0\ndid 0 1 sent\ndid 1 2 sent\ndid 2 3 sent\ndid 3 4 closed\nreply 1 ok\nreply 2 ok\nreply 3 bytes bbbbbbbbbbbbbbbbbbbbbbbbbbbbbbbb\nthread 2 owner 0\nran 1 0 request 1\nran 1 1 request 2\nran 1 2 request 3\nran 0 0 stop\ndevice 0 1 0 1\nhome 4 1\nend\n",
        ),
    ];
    for (depth, ops, wanted) in cases {
        let script = script(alloc, depth, ops)?;
        let report = run(&rt, alloc, script.as_bytes())?;
        assert!(rt; report.as_slice().ends_with(wanted.as_bytes()), "{ops}");
    }
    Ok(())
}

#[test]
fn eighteen_reads_go_four_at_a_time(rt: HostRuntime) -> Result<(), Fail> {
    let alloc = rt.alloc();
    let mut ops = String::from_str(alloc, r#"["get","m"],"#)?;
    for _ in 0..18 {
        ops.push_str(r#"["read","m",1,1],"#)?;
    }
    ops.push_str(r#"["put","m"]"#)?;
    let script = script(alloc, 4, ops.as_str())?;
    let report = run(&rt, alloc, script.as_bytes())?;
    let told = str::from_utf8(report.as_slice()).unwrap_or("");
    assert!(rt;
        told.contains(
            "did 0 0 given 0\ndid 0 1 sent\ndid 0 2 sent\ndid 0 3 sent\ndid 0 4 sent\ndid 4 5 sent\ndid 4 6 sent\ndid 4 7 sent\ndid 4 8 sent\ndid 8 9 sent\ndid 8 10 sent\ndid 8 11 sent\ndid 8 12 sent\ndid 12 13 sent\ndid 12 14 sent\ndid 12 15 sent\ndid 12 16 sent\ndid 16 17 sent\ndid 16 18 sent\ndid 18 19 deferred\ndid 18 20 closed\n"
        )
    );
    assert!(rt; told.contains("ran 1 16 request 17\nran 1 17 request 18\nran 0 0 stop\n"));
    Ok(())
}
