//! Where several rules fail, or one at several lines, the first rule and the first line are told.
use crate::changes::fails;
use crate::shared_texts::SHARED;
use crate::texts::FOUR_OPS;
use crate::visit_texts::VISITS;
use std::test::Fail;

#[test]
fn the_first_rule_is_told(rt: HostRuntime) -> Result<(), Fail> {
    let alloc = rt.alloc();
    let of_two_rules = [
        ("18 thread 1 client 1; 35", 0, 35),
        ("18 thread 1 client 1; 34 home 3 1", 1, 18),
        ("19 ran 2 1 reply 1; 29 thread 2 owner 1", 1, 29),
        ("16 did 0 0 began 1; 32 ran 0 1 stop", 2, 32),
        ("+15 ran 2 0 done; 25 did 1 3 deferred", 3, 26),
        ("27 reply 1 writes 0; 31 ran 1 1 request 1", 4, 20),
        (
            "28 reply 2 bytes acacacacacacacacacacacacacacacac; +32 ran 7 0 stop",
            4,
            33,
        ),
        (
            "17; 28 reply 2 bytes acacacacacacacacacacacacacacacac",
            5,
            27,
        ),
        (
            "22 did 0 0 given 1; 28 reply 2 bytes acacacacacacacacacacacacacacacac",
            5,
            28,
        ),
        ("33 device 0 2 0 1; 34 home 3 1", 6, 33),
    ];
    fails(&rt, alloc, FOUR_OPS, &of_two_rules)?;
    let of_visits = [
        ("33 seen 1 2:1; 45 device 0 2 0 1", 6, 45),
        ("40 seen 0; 46 home 1 1", 7, 40),
        ("32 did 2 2 closed; 16 ran 1 1 done", 2, 16),
        ("17 ran 2 0 visit 2 0 0; 39 did 2 1 closed", 3, 39),
    ];
    fails(&rt, alloc, VISITS, &of_visits)?;
    Ok(())
}

#[test]
fn the_first_line_of_a_rule_is_told(rt: HostRuntime) -> Result<(), Fail> {
    let alloc = rt.alloc();
    let of_two_threads = [
        ("26 did 1 0 began 2; 38 did 5 5 closed", 3, 26),
        ("38 did 5 5 closed; 55 did 6 7 closed", 3, 38),
        ("32 ran 1 0 stop; 66", 4, 32),
        ("66; 47", 4, 42),
        ("41 reply 3 writes 1; 58 reply 5 ok", 5, 41),
        ("41 reply 3 writes 1; 58", 5, 41),
        ("41; 56 reply 1 writes 1", 5, 28),
    ];
    fails(&rt, alloc, SHARED, &of_two_threads)?;
    let of_visits = [("33 seen 1; 40 seen 0", 7, 33)];
    fails(&rt, alloc, VISITS, &of_visits)?;
    Ok(())
}
