//! Runs with as many rounds as a report may have.
use lw_base::NoMemory;
use lw_judge::{Verdict, judge_report};
use std::alloc::Global;
use std::test::Fail;

// A report up to its clock's line, which is line 19.
const HEAD: &str = "\
lightrun report 1
scheduler dynamic
reactors 1
period 7
pool 1 1
images 1
image m 16 1
clients 1
client a 1 0
thread 0 app 0
ran 1 0 done
did 1 0 began 0
called 1 0
thread 1 client 0
did 0 0 closed
thread 2 owner 0
ran 0 0 stop
device 0 0 0 1
";

// Judges a report with rounds from time 10 on, each as soon as it is due. FIRST is 3.
fn judged(alloc: Global, rounds: u64, last: u64) -> Result<Verdict, NoMemory> {
    let mut text = String::new(alloc);
    text.push_str(HEAD)?;
    text.push_str(format!(in alloc; "clock 3 {last}\n")?.as_str())?;
    for number in 1..rounds.saturating_add(1) {
        let time = number.saturating_mul(7).saturating_add(3);
        text.push_str(format!(in alloc; "round {number} {time}\n")?.as_str())?;
    }
    text.push_str("home 1 1\nend\n")?;
    judge_report(alloc, text.as_bytes())
}

#[test]
fn there_may_be_ten_thousand_rounds(rt: HostRuntime) -> Result<(), Fail> {
    // The last one is at 70,003; behind it none is due.
    for last in [70_003, 70_009, 70_010, 18_446_744_073_709_551_615] {
        let verdict = judged(rt.alloc(), 10_000, last)?;
        assert_eq!(rt; verdict, Verdict::Lawful, "{last}");
    }
    let verdict = judged(rt.alloc(), 9_999, 70_002)?;
    assert_eq!(rt; verdict, Verdict::Lawful);
    Ok(())
}

#[test]
fn there_are_no_more_rounds(rt: HostRuntime) -> Result<(), Fail> {
    for (rounds, last, line) in [
        (10_001, 70_010, 10_020),
        (10_001, 70_009, 10_020),
        (10_002, 70_017, 10_020),
        // One that LAST is before, and one that is missing.
        (10_000, 70_002, 10_019),
        (9_999, 70_003, 10_019),
    ] {
        let verdict = judged(rt.alloc(), rounds, last)?;
        assert_eq!(rt;
            verdict,
            Verdict::Unlawful { clause: 8, line },
            "{rounds} {last}"
        );
    }
    Ok(())
}
