//! Changes that leave a report lawful.
use crate::changes::holds;
use crate::shared_texts::{SHARED, TWO_IMAGES};
use crate::texts::{AGAIN, COUNTED, FOUR_OPS, HELD_AT_CLOSE, TWO_PUTS, UNREGISTERS, WITHOUT_OPS};
use std::test::Fail;

#[test]
fn runs_may_differ(rt: HostRuntime) -> Result<(), Fail> {
    let alloc = rt.alloc();
    let of_four = [
        "4 period 7",
        "9 client a 2 4",
        // The close comes behind the put's own message.
        "26 did 3 4 closed",
        // A wait waits for no reply, and the close gives the channel back.
        "13 op wait 1; 25 did 0 3 waited",
        "13 op wait 1; 25 did 1 3 waited",
    ];
    holds(&rt, alloc, FOUR_OPS, &of_four)?;
    let other_ops = [
        "9 client a 1 1; +9 op wait 7; 15 did 0 0 waited; +15 did 0 1 closed",
        "9 client a 1 2; +9 op unregister 0; +9 op unregister 0; 12 did 1 0 already; 13; 15 did 0 0 began 0; +15 did 0 1 already; +15 did 0 2 closed; +15 called 0 0; 18 device 0 0 1 1",
    ];
    holds(&rt, alloc, WITHOUT_OPS, &other_ops)?;
    let of_two = ["9 client a 3 5", "24 ran 1 0 done; 25 ran 2 0 done"];
    holds(&rt, alloc, SHARED, &of_two)?;
    // With a depth of two the flush needn't wait for the write.
    let deeper = ["10 client a 2 10; 44 did 0 5 sent"];
    holds(&rt, alloc, TWO_IMAGES, &deeper)?;
    let other_callbacks = ["17 called 1 1; 18 called 1 0"];
    holds(&rt, alloc, HELD_AT_CLOSE, &other_callbacks)?;
    Ok(())
}

#[test]
fn a_channel_goes_with_the_last_message_of_its_puts(rt: HostRuntime) -> Result<(), Fail> {
    let alloc = rt.alloc();
    let after_the_first = [
        "16 did 1 0 began 2; 24 did 1 2 given 1; 25 did 1 3 sent; 31 device 0 2 0 1",
    ];
    holds(&rt, alloc, AGAIN, &after_the_first)?;
    let after_the_second = [
        "17 did 1 0 began 2; 27 did 2 4 given 1; 28 did 2 5 closed; 31 device 0 2 0 1",
    ];
    holds(&rt, alloc, TWO_PUTS, &after_the_second)?;
    // No rule says when a message came: the put's own one was run before the put, and took nothing away.
    holds(
        &rt,
        alloc,
        COUNTED,
        &["26 did 2 4 deferred; 27 did 2 5 closed"],
    )?;
    Ok(())
}

#[test]
fn a_client_may_unregister_what_it_holds(rt: HostRuntime) -> Result<(), Fail> {
    let others = [
        "12 op unregister 0; 20 did 0 2 already",
        "12 op visit 0",
        "12 op put 0; 20 did 0 2 deferred",
    ];
    holds(&rt, rt.alloc(), UNREGISTERS, &others)?;
    Ok(())
}
