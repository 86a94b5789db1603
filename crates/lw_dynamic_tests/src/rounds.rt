//! The clock, and the numbers, times and rows of rounds.
use crate::changes::{fails, holds};
use crate::texts::{ONE_MOVE, QUIET, SIX_ORDERS};
use lw_judge::{Verdict, judge_report};
use std::test::Fail;

#[test]
fn lawful_reports(rt: HostRuntime) -> Result<(), Fail> {
    for text in [ONE_MOVE, QUIET, SIX_ORDERS] {
        let verdict = judge_report(rt.alloc(), text.as_bytes())?;
        assert_eq!(rt; verdict, Verdict::Lawful, "{text}");
    }
    Ok(())
}

#[test]
fn clocks_and_rounds_need_the_dynamic_scheduler(rt: HostRuntime) -> Result<(), Fail> {
    let alloc = rt.alloc();
    let cases = [
        ("dynamic", "static", 0, 19),
        ("clock 3 30\n", "", 0, 19),
        ("home 1 1", "clock 3 30\nhome 1 1", 0, 27),
        ("thread 2", "round 4 31\nthread 2", 0, 16),
    ];
    fails(&rt, alloc, QUIET, &cases)?;
    let with_hops = [("dynamic", "static", 0, 22), ("clock 0 10\n", "", 0, 22)];
    fails(&rt, alloc, ONE_MOVE, &with_hops)?;
    Ok(())
}

#[test]
fn rounds_come_a_period_apart(rt: HostRuntime) -> Result<(), Fail> {
    let alloc = rt.alloc();
    let cases = [
        // A tick short, before the first round, the second and the third.
        ("clock 5 409", "clock 6 409", 8, 29),
        ("round 1 105", "round 1 104", 8, 29),
        ("round 2 210", "round 2 204", 8, 36),
        ("round 3 310", "round 3 309", 8, 43),
        // A round that came late leaves the next one short.
        ("round 1 105", "round 1 111", 8, 36),
        ("round 2 210", "round 2 211", 8, 43),
        ("round 2 210", "round 2 18446744073709551615", 8, 36),
        ("period 100", "period 101", 8, 29),
        ("period 100", "period 99", 8, 49),
        // FIRST with the period is past all numbers of a text.
        (
            "clock 5 409",
            "clock 18446744073709551615 18446744073709551615",
            8,
            29,
        ),
    ];
    fails(&rt, alloc, SIX_ORDERS, &cases)?;
    // Nothing says that a round comes as soon as it is due, but for LAST.
    let late = [
        ("clock 5", "clock 0"),
        ("round 2 210", "round 2 205"),
        ("round 1 105", "round 1 110"),
        ("round 3 310", "round 3 409"),
    ];
    holds(&rt, alloc, SIX_ORDERS, &late)?;
    Ok(())
}

#[test]
fn the_clock_is_around_the_rounds(rt: HostRuntime) -> Result<(), Fail> {
    let alloc = rt.alloc();
    let cases = [
        ("clock 5 409", "clock 410 409", 8, 28),
        ("clock 5 409", "clock 5 4", 8, 28),
        ("clock 5 409", "clock 5 5", 8, 29),
        ("clock 5 409", "clock 5 104", 8, 29),
        ("clock 5 409", "clock 5 309", 8, 43),
        ("clock 5 409", "clock 5 410", 8, 49),
        ("clock 5 409", "clock 5 18446744073709551615", 8, 49),
        ("home 1 1", "round 4 410\nhome 1 1", 8, 49),
        ("home 1 1", "round 4 409\nhome 1 1", 8, 49),
    ];
    fails(&rt, alloc, SIX_ORDERS, &cases)?;
    holds(&rt, alloc, SIX_ORDERS, &[("clock 5 409", "clock 5 310")])?;
    Ok(())
}

#[test]
fn a_run_may_have_no_round(rt: HostRuntime) -> Result<(), Fail> {
    let alloc = rt.alloc();
    let rounds =
        "clock 3 30\nround 1 10\nrow 0 0 4 3\nrow 1 0 0 0\nrow 2 0 7 0\nround 2 17\nround 3 24\nrow 2 0 18446744073709551615 18446744073709551615\n";
    let ends = [(rounds, "clock 3 9\n"), (rounds, "clock 3 3\n")];
    holds(&rt, alloc, QUIET, &ends)?;
    let cases = [
        (rounds, "clock 3 10\n", 8, 20),
        (rounds, "clock 3 2\n", 8, 19),
        (rounds, "", 0, 19),
    ];
    fails(&rt, alloc, QUIET, &cases)?;
    Ok(())
}

#[test]
fn rounds_are_numbered_from_one(rt: HostRuntime) -> Result<(), Fail> {
    let cases = [
        ("round 1 10", "round 0 10", 8, 20),
        ("round 1 10", "round 2 10", 8, 20),
        ("round 2 17", "round 1 17", 8, 24),
        ("round 2 17", "round 3 17", 8, 24),
        ("round 2 17", "round 4294967295 17", 8, 24),
        ("round 3 24", "round 2 24", 8, 25),
        ("round 2 17\n", "", 8, 24),
        ("round 2 17\n", "round 2 17\nround 2 17\n", 8, 25),
        ("home 1 1", "round 5 30\nhome 1 1", 8, 27),
    ];
    fails(&rt, rt.alloc(), QUIET, &cases)?;
    Ok(())
}

#[test]
fn rows_are_of_threads_and_reactors(rt: HostRuntime) -> Result<(), Fail> {
    let alloc = rt.alloc();
    let cases = [
        ("row 1 0 0 0", "row 0 0 0 0", 8, 22),
        (
            "row 0 0 4 3\nrow 1 0 0 0",
            "row 1 0 0 0\nrow 0 0 4 3",
            8,
            22,
        ),
        ("row 0 0 4 3", "row 2 0 4 3", 8, 22),
        ("row 2 0 7 0", "row 3 0 7 0", 8, 23),
        ("row 2 0 7 0", "row 4294967295 0 7 0", 8, 23),
        ("row 0 0 4 3", "row 0 1 4 3", 8, 21),
        ("row 1 0 0 0", "row 1 4294967295 0 0", 8, 22),
        ("row 2 0 18", "row 2 1 18", 8, 26),
        ("round 2 17\n", "round 2 17\nrow 3 0 0 0\n", 8, 25),
        ("row 2 0 18", "row 3 0 18", 8, 26),
        // The pool is looked at after the rounds.
        ("home 1 1", "home 1 2", 9, 27),
        ("home 1 1", "row 2 0 0 0\nhome 1 2", 8, 27),
    ];
    fails(&rt, alloc, QUIET, &cases)?;
    // A thread needs no row.
    let fewer = [("row 1 0 0 0\n", ""), ("row 0 0 4 3\nrow 1 0 0 0\n", "")];
    holds(&rt, alloc, QUIET, &fewer)?;
    Ok(())
}
