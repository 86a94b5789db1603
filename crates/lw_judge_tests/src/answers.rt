//! Each op has one line, in order, and it comes when it may.
use crate::changes::fails;
use crate::shared_texts::{ONE_BUFFER, SHARED, TWO_IMAGES};
use crate::texts::{AGAIN, FOUR_OPS, WITHOUT_OPS};
use crate::visit_texts::{HOLDERS, VISITS};
use std::test::Fail;

#[test]
fn lines_come_in_order(rt: HostRuntime) -> Result<(), Fail> {
    let alloc = rt.alloc();
    let cases = [
        // Line 26 falls, and by own order the close comes before the put, which finds no reference.
        ("25 did 3 3 deferred", 3, 25),
        // Line 25 falls, and by own order the put comes before the read, which finds no reference.
        ("24 did 1 2 sent; 25 did 0 3 deferred", 3, 24),
        ("26 did 4 4 closed", 3, 26),
        ("26 did 18446744073709551615 4 closed", 3, 26),
        ("16 did 2 0 began 1", 3, 16),
        ("17 called 2 0", 3, 17),
        ("+17 called 0 0", 3, 18),
        // One of two replies is lost: the put comes while the read is unanswered.
        ("20", 3, 24),
    ];
    fails(&rt, alloc, FOUR_OPS, &cases)?;
    fails(&rt, alloc, WITHOUT_OPS, &[("15 did 1 0 closed", 3, 15)])?;
    // The flush comes first by own order, and the write finds it under way at depth 1.
    let later_first = [("43 did 1 4 sent; 44 did 0 5 sent", 3, 43)];
    fails(&rt, alloc, TWO_IMAGES, &later_first)?;
    // By own order the close comes before the put.
    fails(&rt, alloc, SHARED, &[("37 did 4 4 deferred", 3, 37)])?;
    Ok(())
}

#[test]
fn each_op_has_one_line(rt: HostRuntime) -> Result<(), Fail> {
    let alloc = rt.alloc();
    let of_a_client = [
        ("26", 3, 18),
        ("24 did 0 1 sent", 3, 24),
        ("23 did 0 2 sent; 24 did 0 1 sent", 3, 23),
        ("+26 did 2 5 closed", 3, 27),
        ("+26 did 3 4 closed", 3, 27),
        ("26 did 2 4 sent", 3, 26),
        ("26 did 2 4294967295 closed", 3, 26),
        ("25 did 2 3 closed", 3, 25),
    ];
    fails(&rt, alloc, FOUR_OPS, &of_a_client)?;
    let of_others = [
        // An owner has none.
        ("+32 did 0 0 closed", 3, 33),
        ("16", 3, 14),
        ("+16 did 1 1 already", 3, 17),
        ("16 did 1 1 began 1", 3, 16),
        ("16 did 1 0 closed", 3, 16),
        ("16 did 1 0 given 0", 3, 16),
        ("16 did 1 0 shut", 3, 16),
    ];
    fails(&rt, alloc, FOUR_OPS, &of_others)?;
    fails(&rt, alloc, WITHOUT_OPS, &[("15", 3, 14)])?;
    let of_two_devices = [
        ("31 did 2 1 already; 32 did 2 0 began 1", 3, 31),
        ("31", 3, 28),
        ("32", 3, 28),
        ("58", 3, 52),
        ("+49 did 4 11 closed", 3, 50),
    ];
    fails(&rt, alloc, TWO_IMAGES, &of_two_devices)?;
    Ok(())
}

#[test]
fn the_app_waits_for_each_client(rt: HostRuntime) -> Result<(), Fail> {
    let alloc = rt.alloc();
    fails(&rt, alloc, FOUR_OPS, &[("16 did 0 0 began 1", 3, 16)])?;
    let cases = [
        ("26 did 1 0 began 2", 3, 26),
        // The other client's, twice, or the app's own.
        ("25 ran 2 1 done", 3, 26),
        ("24 ran 0 0 done", 3, 26),
        ("25 ran 1 0 stop", 3, 26),
        // With one message less the line stands past the last.
        ("24", 3, 25),
    ];
    fails(&rt, alloc, SHARED, &cases)?;
    // The fifth message is the last client's.
    fails(&rt, alloc, VISITS, &[("21 did 4 0 began 1", 3, 21)])?;
    Ok(())
}

#[test]
fn requests_keep_to_the_depth(rt: HostRuntime) -> Result<(), Fail> {
    let alloc = rt.alloc();
    fails(&rt, alloc, FOUR_OPS, &[("9 client a 1 4", 3, 24)])?;
    let cases = [
        ("36 did 0 3 sent", 3, 36),
        ("9 client a 1 5", 3, 35),
        ("15 client b 1 7", 3, 50),
    ];
    fails(&rt, alloc, SHARED, &cases)?;
    let of_two_images = [
        ("44 did 0 5 sent", 3, 44),
        // Those to the other image count too.
        ("16 op flush 0; 44 did 0 5 sent", 3, 44),
    ];
    fails(&rt, alloc, TWO_IMAGES, &of_two_images)?;
    Ok(())
}

#[test]
fn what_gives_back_waits_for_the_replies(rt: HostRuntime) -> Result<(), Fail> {
    let alloc = rt.alloc();
    let cases = [
        ("25 did 1 3 deferred", 3, 25),
        ("13 op unregister 0; 25 did 1 3 began 1", 3, 25),
        // Replies that were run before the requests were sent answer none of them.
        ("23 did 2 1 sent; 24 did 2 2 sent", 3, 25),
        // A reply to another op.
        ("20 ran 2 1 reply 1", 3, 25),
        ("20 ran 2 1 reply 4294967295", 3, 25),
    ];
    fails(&rt, alloc, FOUR_OPS, &cases)?;
    let of_two = [
        ("37 did 2 4 deferred", 3, 37),
        ("51 did 1 3 deferred", 3, 51),
    ];
    fails(&rt, alloc, SHARED, &of_two)?;
    fails(&rt, alloc, AGAIN, &[("26 did 1 4 closed", 3, 26)])?;
    fails(&rt, alloc, ONE_BUFFER, &[("33 did 2 4 closed", 3, 33)])?;
    fails(&rt, alloc, HOLDERS, &[("60 did 3 5 closed", 3, 60)])?;
    Ok(())
}

#[test]
fn ops_have_answers_of_their_own(rt: HostRuntime) -> Result<(), Fail> {
    let alloc = rt.alloc();
    let cases = [
        ("23 did 0 1 waited", 3, 23),
        ("24 did 0 2 deferred", 3, 24),
        ("25 did 2 3 sent", 3, 25),
        ("22 did 0 0 nochannel", 3, 22),
        ("22 did 0 0 counted", 3, 22),
    ];
    fails(&rt, alloc, FOUR_OPS, &cases)?;
    let of_others = [
        ("48 did 2 9 started", 3, 48),
        ("48 did 2 9 sent", 3, 48),
        ("54 did 0 1 shut", 3, 54),
        ("54 did 0 1 waited", 3, 54),
        ("57 did 0 4 already", 3, 57),
    ];
    fails(&rt, alloc, TWO_IMAGES, &of_others)?;
    let of_visits = [
        ("31 did 0 1 waited", 3, 31),
        ("31 did 0 1 already", 3, 31),
        // A cast is of no device that could be shut.
        ("38 did 0 0 shut", 3, 38),
    ];
    fails(&rt, alloc, VISITS, &of_visits)?;
    Ok(())
}
