//! A client lists what its visits and casts came to.
use crate::changes::{fails, holds};
use crate::visit_texts::{CAST_AND_VISIT, HOLDERS, VISITS};
use std::test::Fail;

#[test]
fn visits_see_who_holds_a_channel(rt: HostRuntime) -> Result<(), Fail> {
    let alloc = rt.alloc();
    let of_one = [
        ("33 seen 1 2:1", 7, 33),
        // Thread 3 ran the token, and held nothing.
        ("33 seen 1 2:0 3:0", 7, 33),
        ("33 seen 1 2:0 2:0", 7, 33),
        ("33 seen 1 3:0", 7, 33),
        ("33 seen 1", 7, 33),
        // A cast's results.
        ("33 seen 1 2", 7, 33),
        ("33 seen 0 2:0", 7, 33),
    ];
    fails(&rt, alloc, VISITS, &of_one)?;
    let of_two = [
        // What the second client submitted before it got its second channel doesn't count.
        ("47 seen 3 1:2 2:2", 7, 47),
        ("47 seen 3 1:3 2:1", 7, 47),
        ("47 seen 3 1:0 2:1", 7, 47),
        ("47 seen 3 2:1 1:2", 7, 47),
        ("47 seen 3 1:2", 7, 47),
        ("47 seen 3 1:2 2:1 3:0", 7, 47),
        ("47 seen 3 1:2 2:18446744073709551615", 7, 47),
        // The second client's last request comes behind the token.
        ("59 did 3 4 sent", 7, 47),
        // The token comes before the third client's channel is gone.
        ("64 ran 2 0 visit 1 3 0; 65 ran 3 0 putself 0", 7, 47),
    ];
    fails(&rt, alloc, HOLDERS, &of_two)?;
    let lawful = [
        "47 seen 3 1:2 2:0; 59 did 3 4 sent",
        "47 seen 3 1:2 2:1 3:0; 64 ran 2 0 visit 1 3 0; 65 ran 3 0 putself 0",
    ];
    holds(&rt, alloc, HOLDERS, &lawful)?;
    Ok(())
}

#[test]
fn casts_see_who_ran_them(rt: HostRuntime) -> Result<(), Fail> {
    let alloc = rt.alloc();
    let cases = [
        ("40 seen 0 0 2 3", 7, 40),
        ("40 seen 0 0 1 2 3 4", 7, 40),
        ("40 seen 0 2 0 3 4", 7, 40),
        ("40 seen 0 0 2 3 4 4", 7, 40),
        ("40 seen 0 0:0 2:0 3:0 4:0", 7, 40),
        // It is read as that of a visit.
        ("40 seen 0", 7, 40),
        ("40 seen 1 0 2 3 4", 7, 40),
        // Thread 1 ran the cast too.
        ("+23 ran 0 0 cast 3 0; 27 ran 1 0 cast 3 0", 7, 41),
    ];
    fails(&rt, alloc, VISITS, &cases)?;
    fails(&rt, alloc, HOLDERS, &[("72 seen 2 0 1 2 3 4", 7, 72)])?;
    let lawful = ["+23 ran 0 0 cast 3 0; 27 ran 1 0 cast 3 0; 40 seen 0 0 1 2 3 4"];
    holds(&rt, alloc, VISITS, &lawful)?;
    Ok(())
}

#[test]
fn each_completion_is_seen_once(rt: HostRuntime) -> Result<(), Fail> {
    let alloc = rt.alloc();
    let cases = [
        ("33", 7, 25),
        ("40", 7, 34),
        ("+33 seen 1 2:0", 7, 34),
        // The first client started nothing.
        ("+24 seen 0 0", 7, 25),
        ("33; 40 seen 0", 7, 25),
        ("33 seen 1; 40", 7, 33),
    ];
    fails(&rt, alloc, VISITS, &cases)?;
    let two_in_a_row = [
        ("26 seen 1; 27 seen 0 0 1 2", 7, 26),
        ("26", 7, 18),
        ("27", 7, 18),
        ("27 seen 1 1:0", 7, 27),
        ("27 seen 1 0", 7, 27),
        ("+27 seen 1", 7, 28),
        // One is lacking, so that the client's own line fails.
        ("26 seen 0 0 1; 27", 7, 18),
    ];
    fails(&rt, alloc, CAST_AND_VISIT, &two_in_a_row)?;
    Ok(())
}
