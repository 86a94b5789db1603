//! Visits and casts go from thread to thread, and what stands behind one waits for its completion.
use crate::changes::fails;
use crate::shared_texts::TWO_IMAGES;
use crate::texts::FOUR_OPS;
use crate::visit_texts::{CAST_AND_VISIT, HOLDERS, VISITS};
use std::test::Fail;

#[test]
fn the_line_behind_waits_for_the_completion(rt: HostRuntime) -> Result<(), Fail> {
    let alloc = rt.alloc();
    let cases = [
        ("32 did 2 2 closed", 3, 32),
        ("39 did 2 1 closed", 3, 39),
        // A cast's completion, and that of another op, complete no visit.
        ("28 ran 4 0 casted 1", 3, 32),
        ("28 ran 4 0 visited 0", 3, 32),
        ("37 ran 4 0 visited 0", 3, 39),
        // What was run before the visit started doesn't complete it.
        ("30 did 3 0 given 0; 31 did 3 1 started", 3, 32),
    ];
    fails(&rt, alloc, VISITS, &cases)?;
    let two_in_a_row = [
        ("24 did 1 1 started", 3, 24),
        ("25 did 3 2 closed", 3, 25),
        ("22 ran 2 1 visited 0", 3, 25),
        ("20 ran 2 0 visited 0", 3, 24),
    ];
    fails(&rt, alloc, CAST_AND_VISIT, &two_in_a_row)?;
    let with_channels = [("43 did 3 4 deferred", 3, 43), ("71 did 3 3 closed", 3, 71)];
    fails(&rt, alloc, HOLDERS, &with_channels)?;
    fails(&rt, alloc, TWO_IMAGES, &[("57 did 0 4 started", 3, 58)])?;
    Ok(())
}

#[test]
fn tokens_are_run_where_they_have_to_be(rt: HostRuntime) -> Result<(), Fail> {
    let alloc = rt.alloc();
    let cases = [
        // The owner ran the visit twice, so that its origin lacks a completion.
        ("+42 ran 3 1 visit 2 1 0; 43 ran 3 2 cast 3 0", 4, 25),
        // The owner didn't run the cast, so that thread 3 completes it, and didn't run that.
        ("43", 4, 34),
        // There it did: the owner alone is at fault.
        ("37 ran 3 0 casted 0; 43", 4, 41),
        // The cast passes by the app.
        (
            "18; 19 ran 3 0 done; 21 did 4 0 began 1; 22 called 4 0; 27 ran 3 0 cast 3 0",
            4,
            15,
        ),
        // It passes by its origin.
        ("36; 39 did 2 1 closed; 43 ran 2 0 cast 3 0", 4, 34),
        // The app ran a token of another op, and lacks the one that was started.
        ("17 ran 2 0 visit 2 0 0", 4, 15),
        // The visit found the device shut, and yet its token was run.
        ("31 did 0 1 shut", 4, 17),
    ];
    fails(&rt, alloc, VISITS, &cases)?;
    let unstarted = [
        // Nobody started it, and its completion is owed to client 1.
        ("+32 ran 1 2 visit 1 0 0", 4, 18),
        ("+32 ran 1 2 cast 9 0", 4, 33),
        ("+15 ran 1 1 cast 1 4", 4, 16),
    ];
    fails(&rt, alloc, FOUR_OPS, &unstarted)?;
    let two_in_a_row = [
        ("24 did 2 1 shut", 4, 14),
        ("13 ran 1 0 visit 1 1 0; 14 ran 1 1 cast 1 0", 4, 13),
        (
            "+14 ran 1 2 cast 1 1; 15 ran 1 3 done; 16 did 4 0 began 0; 17 called 4 0",
            4,
            15,
        ),
    ];
    fails(&rt, alloc, CAST_AND_VISIT, &two_in_a_row)?;
    Ok(())
}

#[test]
fn tokens_come_from_the_thread_before(rt: HostRuntime) -> Result<(), Fail> {
    let alloc = rt.alloc();
    let cases = [
        ("35 ran 2 0 cast 3 0; 36 ran 2 1 visit 2 1 0", 4, 35),
        // The owner's completion wasn't run, but another thread's, which sent none.
        ("28 ran 3 0 visited 1", 4, 25),
        ("+28 ran 4 1 visited 1", 4, 29),
    ];
    fails(&rt, alloc, VISITS, &cases)?;
    let with_channels = [
        ("65 ran 2 0 cast 3 2; 66 ran 2 1 visit 1 3 0", 4, 65),
        ("77 ran 3 0 cast 3 2; 79 ran 3 1 visit 1 3 0", 4, 77),
    ];
    fails(&rt, alloc, HOLDERS, &with_channels)?;
    Ok(())
}
