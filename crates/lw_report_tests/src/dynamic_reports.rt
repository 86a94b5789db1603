//! Reports of dynamic runs: the clock's line, rounds, rows, orders and hops.
use lw_base::NoMemory;
use lw_model::{Record, Scheduler};
use lw_report::{Parsed, read_report};
use lw_report_print::print;
use std::alloc::Global;
use std::test::Fail;

// One round that moves the client to the other reactor.
const ONE_MOVE: &str =
    "lightrun report 1\nscheduler dynamic\nreactors 2\nperiod 10\npool 1 1\nimages 1\nimage m 16 1\nclients 1\nclient a 1 1\nop wait 5\nthread 0 app 0\nran 1 0 done\ndid 1 0 began 0\ncalled 1 0\nthread 1 client 1\nhop 1 0\ndid 0 0 waited\ndid 0 1 closed\nthread 2 owner 0\nran 0 0 stop\ndevice 0 0 0 1\nclock 0 10\nround 1 10\nrow 0 0 0 0\nrow 1 1 0 0\nrow 2 0 0 0\norder 1 0\nhome 1 1\nend\n";

// Rounds with rows and orders, with either alone and with none; the clock's line is line 15, the last round's line 27.
const ROUNDS: &str =
    "lightrun report 1\nscheduler dynamic\nreactors 16\nperiod 1\npool 1 1\nimages 1\nimage m 16 1\nclients 1\nclient a 1 0\nthread 0 app 0\nthread 1 client 0\nhop 4294967295 4294967295\nthread 2 owner 0\ndevice 0 0 0 0\nclock 18446744073709551615 0\nround 1 10\nrow 0 0 1 2\nrow 4294967295 4294967295 18446744073709551615 18446744073709551615\norder 0 1\norder 4294967295 4294967295\nround 0 0\nround 4294967295 18446744073709551615\norder 0 0\nround 1 1\nrow 2 2 2 2\nrow 2 2 2 2\nround 1 1\nhome 0 7\nend\n";

// A dynamic run that made no round.
const NO_ROUND: &str =
    "lightrun report 1\nscheduler dynamic\nreactors 1\nperiod 1000000\npool 1 1\nimages 1\nimage m 16 1\nclients 1\nclient a 1 0\nthread 0 app 0\nran 1 0 done\ndid 1 0 began 0\ncalled 1 0\nthread 1 client 0\ndid 0 0 closed\nthread 2 owner 0\nran 0 0 stop\ndevice 0 0 0 1\nclock 3 9\nhome 1 1\nend\n";

// The first bad line of a text, or 0 where it is a record's.
fn bad_line(alloc: Global, text: &str) -> Result<u64, NoMemory> {
    match read_report(alloc, text.as_bytes())? {
        Parsed::Told(_) => Ok(0),
        Parsed::BadLine { line } => Ok(line),
    }
}

// Whether a text is that of the record that is read from it.
fn comes_back(alloc: Global, text: &str) -> Result<bool, NoMemory> {
    match read_report(alloc, text.as_bytes())? {
        Parsed::Told(record) => Ok(print(alloc, &record)?.as_slice() == text.as_bytes()),
        Parsed::BadLine { line: _ } => Ok(false),
    }
}

// Whether a record has one round, which orders thread 1 from reactor 1 to reactor 0.
fn has_one_move(record: &Record) -> bool {
    let rounds = record.rounds.as_slice();
    if rounds.len() != 1 {
        return false;
    }
    let rows = rounds[0].rows.as_slice();
    let orders = rounds[0].orders.as_slice();
    rounds[0].number == 1
        && rounds[0].time == 10
        && rows.len() == 3
        && rows[1].thread == 1
        && rows[1].reactor == 1
        && orders.len() == 1
        && orders[0].thread == 1
        && orders[0].to == 0
}

#[test]
fn texts_come_back(rt: HostRuntime) -> Result<(), Fail> {
    let alloc = rt.alloc();
    for text in [ONE_MOVE, ROUNDS, NO_ROUND] {
        assert!(rt; comes_back(alloc, text)?);
    }
    Ok(())
}

#[test]
fn a_record_has_what_its_lines_say(rt: HostRuntime) -> Result<(), Fail> {
    match read_report(rt.alloc(), ONE_MOVE.as_bytes())? {
        Parsed::Told(record) => {
            assert!(rt; matches!(record.scheduler, Scheduler::Dynamic));
            assert!(rt; matches!(record.span, Some(span) if span.first == 0 && span.last == 10));
            assert!(rt; has_one_move(&record));
        }
        Parsed::BadLine { line } => assert_eq!(rt; line, 0),
    }
    Ok(())
}

#[test]
fn a_text_is_cut_at_each_line(rt: HostRuntime) -> Result<(), Fail> {
    let alloc = rt.alloc();
    let mut line = 1;
    for (place, byte) in ROUNDS.as_bytes().iter().enumerate() {
        if *byte == b'\n' {
            assert!(rt; bad_line(alloc, &ROUNDS[..place])? == line);
            line = line.saturating_add(1);
        }
    }
    Ok(())
}

#[test]
fn an_edited_line_is_the_bad_one(rt: HostRuntime) -> Result<(), Fail> {
    let alloc = rt.alloc();
    for (old, new, line) in [
        ("dynamic", "static", 15),
        ("dynamic", "dynamics", 2),
        ("dynamic", "Dynamic", 2),
        ("scheduler dynamic\n", "", 2),
        (
            "scheduler dynamic\n",
            "scheduler dynamic\nscheduler dynamic\n",
            3,
        ),
        ("clock 18446744073709551615 0\n", "", 15),
        (
            "clock 18446744073709551615 0\n",
            "clock 1 0\nclock 1 0\n",
            16,
        ),
        (
            "clock 18446744073709551615 0",
            "clock 18446744073709551616 0",
            15,
        ),
        (
            "clock 18446744073709551615 0",
            "clock 0 18446744073709551616",
            15,
        ),
        ("clock 18446744073709551615 0", "clock 0", 15),
        ("clock 18446744073709551615 0", "clock 0 0 0", 15),
        ("round 1 10", "round 4294967296 10", 16),
        ("round 1 10", "round 1 18446744073709551616", 16),
        ("round 1 10", "round 01 10", 16),
        ("round 1 10", "round 1", 16),
        ("round 1 10\n", "", 16),
        ("row 0 0 1 2", "row 4294967296 0 1 2", 17),
        ("row 0 0 1 2", "row 0 4294967296 1 2", 17),
        ("row 0 0 1 2", "row 0 0 18446744073709551616 2", 17),
        ("row 0 0 1 2", "row 0 0 1 18446744073709551616", 17),
        ("row 0 0 1 2", "row 0 0 1", 17),
        ("row 0 0 1 2", "row 0 0 1 2 3", 17),
        ("order 0 1", "order 4294967296 1", 19),
        ("order 0 1", "order 0 4294967296", 19),
        ("order 0 1", "order 0", 19),
        ("order 0 1\n", "order 0 1\nrow 1 1 1 1\n", 20),
        ("round 0 0\n", "round 0 0\norder 0 0\nrow 0 0 0 0\n", 23),
        ("round 0 0\n", "round 0 0\nhop 1 0\n", 22),
        ("round 0 0\n", "round 0 0\nclock 0 0\n", 22),
        ("hop 4294967295 4294967295", "hop 4294967295 4294967296", 12),
        ("home 0 7", "home 0 7\nround 2 2", 29),
        ("device 0 0 0 0\n", "round 1 1\ndevice 0 0 0 0\n", 14),
        ("end\n", "end\nend\n", 30),
    ] {
        let text = ROUNDS.replacen(alloc, old, new, 1)?;
        assert_eq!(rt; bad_line(alloc, text.as_str())?, line);
    }
    Ok(())
}

#[test]
fn a_static_report_has_no_rounds(rt: HostRuntime) -> Result<(), Fail> {
    let alloc = rt.alloc();
    let text = NO_ROUND.replacen(alloc, "dynamic", "static", 1)?;
    assert_eq!(rt; bad_line(alloc, text.as_str())?, 19);
    let without = text.replacen(alloc, "clock 3 9\n", "", 1)?;
    assert_eq!(rt; bad_line(alloc, without.as_str())?, 0);
    let round = text.replacen(alloc, "clock 3 9\n", "round 1 1\n", 1)?;
    assert_eq!(rt; bad_line(alloc, round.as_str())?, 19);
    Ok(())
}
