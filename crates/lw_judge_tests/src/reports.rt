//! Lawful reports, a report of one client, and what is no report.
use crate::changes::fails;
use crate::shared_texts::{ONE_BUFFER, SHARED, SHUT, THREE_CLIENTS, TWO_IMAGES};
use crate::texts::{
    AGAIN, COUNTED, FOUR_OPS, HELD_AT_CLOSE, NO_CHANNEL, TWO_PUTS, UNREGISTERS, WITHOUT_OPS,
};
use crate::visit_texts::{CAST_AND_VISIT, HOLDERS, VISITS};
use lw_base::NoMemory;
use lw_judge::{REPORT_LIMIT, Verdict, judge_report};
use std::alloc::Global;
use std::test::Fail;

#[test]
fn lawful_reports(rt: HostRuntime) -> Result<(), Fail> {
    for text in [
        WITHOUT_OPS,
        FOUR_OPS,
        AGAIN,
        TWO_PUTS,
        UNREGISTERS,
        NO_CHANNEL,
        COUNTED,
        HELD_AT_CLOSE,
        SHARED,
        TWO_IMAGES,
        THREE_CLIENTS,
        SHUT,
        ONE_BUFFER,
        CAST_AND_VISIT,
        VISITS,
        HOLDERS,
    ] {
        let verdict = judge_report(rt.alloc(), text.as_bytes())?;
        assert_eq!(rt; verdict, Verdict::Lawful, "{text}");
    }
    Ok(())
}

#[test]
fn the_worked_report(rt: HostRuntime) -> Result<(), Fail> {
    let cases = [
        ("19 ran 2 1 reply 2; 20 ran 2 0 reply 1", 2, 19),
        ("19 ran 2 0 reply 2; 20 ran 2 1 reply 1", 4, 19),
        ("35", 0, 35),
        ("5 pool 0 1", 0, 14),
        ("12 op read 0 4 1", 0, 14),
        ("18 thread 1 client 1", 1, 18),
        // The get holds nothing then, and the write behind it was sent.
        ("22 did 0 0 shut", 3, 23),
        ("24", 3, 18),
        ("28 reply 2 bytes abababababababababababababababac", 5, 28),
        ("30 ran 1 0 request 2; 31 ran 1 1 request 1", 4, 19),
        ("17", 6, 32),
        ("33 device 0 1 0 2", 6, 33),
        ("34 home 3 1", 9, 34),
    ];
    fails(&rt, rt.alloc(), FOUR_OPS, &cases)?;
    Ok(())
}

#[test]
fn what_is_no_report_fails_rule_0(rt: HostRuntime) -> Result<(), Fail> {
    let cases = [
        ("1 lightrun report 2", 0, 1),
        // A dynamic run's report has a clock line behind the devices.
        ("2 scheduler dynamic", 0, 34),
        // A script that breaks a rule makes the line behind it bad.
        ("13 op put 1", 0, 14),
        ("19 ran 2 0 reply 01", 0, 19),
        ("17 called 1 1", 0, 17),
        ("+17 reply 1 ok", 0, 18),
        ("29 thread 2 client 0", 0, 29),
        ("+32 hop 1 0", 0, 33),
        ("33", 0, 33),
        ("33 device 0 1 0 4294967296", 0, 33),
        ("+35 end", 0, 36),
    ];
    fails(&rt, rt.alloc(), FOUR_OPS, &cases)?;
    fails(&rt, rt.alloc(), "", &[("", 0, 1)])?;
    Ok(())
}

// As many bytes as a report may have, with an empty line first.
fn longest(alloc: Global) -> Result<Vec<u8>, NoMemory> {
    let mut bytes = Vec::with_capacity(alloc, REPORT_LIMIT + 1)?;
    bytes.push(b'\n')?;
    let piece = vec![in alloc; b' '; 65_536]?;
    for _ in 0..REPORT_LIMIT / 65_536 {
        bytes.extend_from_slice(piece.as_slice())?;
    }
    bytes.pop();
    Ok(bytes)
}

#[test]
fn a_report_has_a_limit(rt: HostRuntime) -> Result<(), Fail> {
    let mut bytes = longest(rt.alloc())?;
    assert_eq!(rt; bytes.len(), REPORT_LIMIT);
    let verdict = judge_report(rt.alloc(), bytes.as_slice())?;
    assert_eq!(rt; verdict, Verdict::Unlawful { clause: 0, line: 1 });
    bytes.push(b' ')?;
    let verdict = judge_report(rt.alloc(), bytes.as_slice())?;
    assert_eq!(rt; verdict, Verdict::Unlawful { clause: 0, line: 0 });
    Ok(())
}
