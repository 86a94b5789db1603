//! Rounds and orders of a dynamic run, and the hops that they order.
use lw_base::{Items, NoMemory, Order, Round, Row, Scheduler};
use lw_judge::{Verdict, judge};
use lw_model::{Record, Span};
use lw_report::{Parsed, read_report};
use std::alloc::Global;
use std::process::Abort;
use std::test::Fail;

// Thread 1 starts on reactor 1 and goes to reactor 0. The record gets a clock and rounds from line 22 on.
const ONE_HOP: &str = "lightrun report 1
scheduler static
reactors 2
period 10
pool 1 1
images 1
image m 16 1
clients 1
client a 1 1
op wait 5
thread 0 app 0
ran 1 0 done
did 1 0 began 0
called 1 0
thread 1 client 1
hop 1 0
did 0 0 waited
did 0 1 closed
thread 2 owner 0
ran 0 0 stop
device 0 0 0 1
home 1 1
end
";

// A round: its number, its time, its rows and its orders.
#[derive(Copy, Clone)]
struct Told<'a> {
    number: u32,
    time: u64,
    rows: &'a [(u32, u32, u64)],
    orders: &'a [(u32, u32)],
}

// All threads idle, where they start.
const AT_HOME: &[(u32, u32, u64)] = &[(0, 0, 0), (1, 1, 0), (2, 0, 0)];

// The first round, where each line but the orders is as it should be.
fn first<'a>(orders: &'a [(u32, u32)]) -> Told<'a> {
    Told {
        number: 1,
        time: 10,
        rows: AT_HOME,
        orders,
    }
}

// A round without rows.
fn empty<'a>(number: u32, time: u64) -> Told<'a> {
    Told {
        number,
        time,
        rows: &[],
        orders: &[],
    }
}

// A round of a record. A row's busy ticks are told, and it has 100 idle ones.
fn round(alloc: Global, told: &Told) -> Result<Round, NoMemory> {
    let mut rows = Items::new(alloc);
    for (thread, reactor, busy) in told.rows {
        rows.push(Row {
            thread: *thread,
            reactor: *reactor,
            busy: *busy,
            idle: 100,
        })?;
    }
    let mut orders = Items::new(alloc);
    for (thread, to) in told.orders {
        orders.push(Order {
            thread: *thread,
            to: *to,
        })?;
    }
    Ok(Round {
        number: told.number,
        time: told.time,
        rows,
        orders,
    })
}

// The record of a dynamic run with the threads of a static run's.
fn dynamic(record: Record, first: u64, last: u64, rounds: Items<Round>) -> Record {
    Record {
        script: record.script,
        scheduler: Scheduler::Dynamic,
        reactors: record.reactors,
        period: record.period,
        threads: record.threads,
        devices: record.devices,
        span: Some(Span { first, last }),
        rounds,
        home: record.home,
    }
}

// Judges the record with these rounds.
fn judged(
    rt: &impl Abort,
    alloc: Global,
    first: u64,
    last: u64,
    told: &[Told],
) -> Result<Verdict, NoMemory> {
    let mut rounds = Items::new(alloc);
    for one in told {
        rounds.push(round(alloc, one)?)?;
    }
    match read_report(alloc, ONE_HOP.as_bytes())? {
        Parsed::Told(record) => judge(alloc, &dynamic(record, first, last, rounds)),
        Parsed::BadLine { line } => {
            assert!(rt; false, "bad line {line}");
            Ok(Verdict::Lawful)
        }
    }
}

// The record with these rounds fails this rule first, at this line.
fn fails(
    rt: &impl Abort,
    alloc: Global,
    span: (u64, u64),
    told: &[Told],
    clause: u8,
    line: u64,
) -> Result<(), NoMemory> {
    let verdict = judged(rt, alloc, span.0, span.1, told)?;
    assert_eq!(rt; verdict, Verdict::Unlawful { clause, line });
    Ok(())
}

#[test]
fn rounds_that_fit_are_lawful(rt: HostRuntime) -> Result<(), Fail> {
    let alloc = rt.alloc();
    let hop = first(&[(1, 0)]);
    assert_eq!(rt; judged(&rt, alloc, 0, 10, &[hop])?, Verdict::Lawful);
    // A round is due at 20, and not before.
    assert_eq!(rt; judged(&rt, alloc, 0, 19, &[hop])?, Verdict::Lawful);
    let two = [hop, empty(2, 20)];
    assert_eq!(rt; judged(&rt, alloc, 0, 29, &two)?, Verdict::Lawful);
    Ok(())
}

#[test]
fn rounds_come_a_period_after_each_other(rt: HostRuntime) -> Result<(), Fail> {
    let alloc = rt.alloc();
    let hop = first(&[(1, 0)]);
    fails(&rt, alloc, (11, 10), &[hop], 8, 22)?;
    fails(&rt, alloc, (1, 10), &[hop], 8, 23)?;
    fails(&rt, alloc, (0, 9), &[hop], 8, 23)?;
    fails(&rt, alloc, (0, 20), &[hop], 8, 28)?;
    fails(&rt, alloc, (0, 20), &[hop, empty(2, 19)], 8, 28)?;
    fails(&rt, alloc, (0, 20), &[hop, empty(3, 20)], 8, 28)?;
    fails(&rt, alloc, (0, 20), &[hop, empty(1, 20)], 8, 28)?;
    fails(&rt, alloc, (0, 30), &[hop, empty(2, 20)], 8, 29)?;
    Ok(())
}

#[test]
fn rows_ascend_and_orders_are_the_plan(rt: HostRuntime) -> Result<(), Fail> {
    let alloc = rt.alloc();
    let with_rows = |rows, orders| Told {
        number: 1,
        time: 10,
        rows,
        orders,
    };
    let swapped = with_rows(&[(1, 1, 0), (0, 0, 0), (2, 0, 0)], &[(1, 0)]);
    fails(&rt, alloc, (0, 10), &[swapped], 8, 25)?;
    let twice = with_rows(&[(0, 0, 0), (1, 1, 0), (1, 1, 0)], &[(1, 0)]);
    fails(&rt, alloc, (0, 10), &[twice], 8, 26)?;
    let no_thread = with_rows(&[(0, 0, 0), (1, 1, 0), (3, 0, 0)], &[(1, 0)]);
    fails(&rt, alloc, (0, 10), &[no_thread], 8, 26)?;
    let no_reactor = with_rows(&[(0, 2, 0), (1, 1, 0), (2, 0, 0)], &[(1, 0)]);
    fails(&rt, alloc, (0, 10), &[no_reactor], 8, 24)?;
    // A thread that is busy for a fifth of the time stays on reactor 1.
    let busy = with_rows(&[(0, 0, 0), (1, 1, 25), (2, 0, 0)], &[(1, 0)]);
    fails(&rt, alloc, (0, 10), &[busy], 8, 27)?;
    let one_too_many = first(&[(1, 0), (2, 1)]);
    fails(&rt, alloc, (0, 10), &[one_too_many], 8, 28)?;
    let another = first(&[(2, 1), (1, 0)]);
    fails(&rt, alloc, (0, 10), &[another], 8, 27)?;
    let both = with_rows(&[(0, 0, 0), (1, 1, 0), (2, 1, 0)], &[(1, 0)]);
    fails(&rt, alloc, (0, 10), &[both], 8, 28)?;
    Ok(())
}

#[test]
fn each_hop_has_its_order(rt: HostRuntime) -> Result<(), Fail> {
    let alloc = rt.alloc();
    fails(&rt, alloc, (0, 9), &[], 1, 16)?;
    fails(&rt, alloc, (0, 10), &[first(&[])], 1, 16)?;
    fails(&rt, alloc, (0, 10), &[first(&[(1, 1)])], 1, 16)?;
    fails(&rt, alloc, (0, 10), &[first(&[(2, 0)])], 1, 16)?;
    fails(&rt, alloc, (0, 10), &[empty(1, 10)], 1, 16)?;
    // Two rounds of one number: either may have the order, and the numbers fail later.
    let later = first(&[(1, 0)]);
    fails(&rt, alloc, (0, 10), &[empty(1, 10), later], 8, 24)?;
    Ok(())
}

#[test]
fn there_are_ten_thousand_rounds_at_most(rt: HostRuntime) -> Result<(), Fail> {
    let alloc = rt.alloc();
    let mut told = Vec::new(alloc);
    told.push(first(&[(1, 0)]))?;
    for number in 2..10_001u32 {
        told.push(empty(number, number as u64 * 10))?;
    }
    // Behind the last round none is due.
    let verdict = judged(&rt, alloc, 0, 1_000_000, told.as_slice())?;
    assert_eq!(rt; verdict, Verdict::Lawful);
    told.push(empty(10_001, 100_010))?;
    fails(&rt, alloc, (0, 1_000_000), told.as_slice(), 8, 10_027)?;
    Ok(())
}
