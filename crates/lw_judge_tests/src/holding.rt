//! What a client holds decides what its gets, puts and requests are answered.
use crate::changes::fails;
use crate::shared_texts::{SHARED, TWO_IMAGES};
use crate::texts::{AGAIN, COUNTED, FOUR_OPS, NO_CHANNEL, TWO_PUTS, UNREGISTERS};
use crate::visit_texts::HOLDERS;
use std::test::Fail;

#[test]
fn gets_find_what_is_held(rt: HostRuntime) -> Result<(), Fail> {
    let alloc = rt.alloc();
    fails(&rt, alloc, FOUR_OPS, &[("22 did 0 0 again 0", 3, 22)])?;
    let before_the_putself = [
        ("24 did 0 2 again 1", 3, 24),
        ("24 did 0 2 given 1", 3, 24),
        // The put's own message was run by then, and the channel is gone.
        ("24 did 1 2 again 0; 25 did 1 3 sent", 3, 24),
    ];
    fails(&rt, alloc, AGAIN, &before_the_putself)?;
    let two_pending = [
        // The first of two pending messages leaves the channel, the second takes it away.
        ("27 did 1 4 given 1", 3, 27),
        ("27 did 2 4 again 0; 28 did 2 5 closed", 3, 27),
        // Only one was pending when the first was run, so that it took channel 0 away.
        ("25 did 1 2 given 1; 26 did 1 3 deferred", 3, 27),
    ];
    fails(&rt, alloc, TWO_PUTS, &two_pending)?;
    let of_two = [
        ("52 did 2 4 given 1", 3, 52),
        ("52 did 3 4 again 1; 53 did 3 5 sent", 3, 52),
    ];
    fails(&rt, alloc, SHARED, &of_two)?;
    let second_channel = [("58 did 2 3 again 1", 3, 58), ("58 did 1 3 given 2", 3, 58)];
    fails(&rt, alloc, HOLDERS, &second_channel)?;
    // A channel of the other image.
    fails(&rt, alloc, TWO_IMAGES, &[("41 did 0 2 again 0", 3, 41)])?;
    Ok(())
}

#[test]
fn puts_and_requests_go_by_the_references(rt: HostRuntime) -> Result<(), Fail> {
    let alloc = rt.alloc();
    let of_one = [
        ("25 did 2 3 counted", 3, 25),
        ("25 did 2 3 nochannel", 3, 25),
        ("23 did 0 1 nochannel", 3, 23),
        ("24 did 0 2 nochannel", 3, 24),
    ];
    fails(&rt, alloc, FOUR_OPS, &of_one)?;
    let of_two = [
        ("23 did 0 1 given 1", 3, 23),
        // The first put gives the last reference back then.
        ("23 did 0 1 shut", 3, 24),
        ("24 did 0 2 deferred", 3, 24),
        ("24 did 0 2 nochannel", 3, 24),
        ("25 did 0 3 nochannel", 3, 25),
        ("26 did 1 4 counted", 3, 26),
        ("26 did 0 4 deferred", 3, 26),
    ];
    fails(&rt, alloc, COUNTED, &of_two)?;
    fails(&rt, alloc, NO_CHANNEL, &[("16 did 0 0 sent", 3, 16)])?;
    let of_two_images = [
        ("40 did 0 1 shut", 3, 42),
        ("42 did 0 3 deferred", 3, 42),
        ("44 did 1 5 nochannel", 3, 44),
        ("45 did 1 6 counted", 3, 45),
        // The other image's channel doesn't serve.
        ("46 did 1 7 sent", 3, 46),
        ("47 did 1 8 deferred", 3, 47),
        ("53 did 0 0 sent", 3, 53),
        ("58 did 0 5 deferred", 3, 58),
    ];
    fails(&rt, alloc, TWO_IMAGES, &of_two_images)?;
    let unregistered = [("12 op put 0; 20 did 0 2 counted", 3, 20)];
    fails(&rt, alloc, UNREGISTERS, &unregistered)?;
    Ok(())
}
