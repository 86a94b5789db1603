//! What a thread ran is what was sent to it, message for message.
use crate::changes::fails;
use crate::shared_texts::{SHARED, TWO_IMAGES};
use crate::texts::{AGAIN, FOUR_OPS, HELD_AT_CLOSE, NO_CHANNEL, TWO_PUTS};
use std::test::Fail;

#[test]
fn no_message_is_lost(rt: HostRuntime) -> Result<(), Fail> {
    let alloc = rt.alloc();
    let of_four = [
        ("21", 4, 18),
        ("32", 4, 29),
        // The first request is lost, so that the owner's only reply is to the second.
        ("30; 31 ran 1 0 request 2", 4, 19),
        // The owner replied to one request more, and the client didn't run that.
        ("+31 ran 1 2 request 2", 4, 18),
    ];
    fails(&rt, alloc, FOUR_OPS, &of_four)?;
    fails(&rt, alloc, AGAIN, &[("21", 4, 18)])?;
    fails(&rt, alloc, TWO_PUTS, &[("22", 4, 19)])?;
    let of_two_images = [
        ("20; 21 ran 1 0 putself 1", 4, 19),
        ("26", 4, 25),
        ("28", 4, 27),
    ];
    fails(&rt, alloc, HELD_AT_CLOSE, &of_two_images)?;
    // A message of another sender doesn't make up for it.
    let of_two = [("47", 4, 42), ("47 ran 1 0 putself 0", 4, 42)];
    fails(&rt, alloc, SHARED, &of_two)?;
    Ok(())
}

#[test]
fn no_message_is_doubled_or_made_up(rt: HostRuntime) -> Result<(), Fail> {
    let alloc = rt.alloc();
    let doubled = [
        ("+15 ran 1 1 done", 4, 16),
        ("+21 ran 1 1 putself 0", 4, 22),
        ("+32 ran 0 1 stop", 4, 33),
        // The client ran the reply to the doubled request.
        ("+20 ran 2 2 reply 2; +31 ran 1 2 request 2", 4, 33),
    ];
    fails(&rt, alloc, FOUR_OPS, &doubled)?;
    let made_up = [
        // An owner is never done, and a client is sent no stop and no request.
        ("+15 ran 2 0 done", 4, 16),
        ("+21 ran 0 0 stop", 4, 22),
        ("+21 ran 2 2 request 1", 4, 22),
        ("+32 ran 2 0 stop", 4, 33),
    ];
    fails(&rt, alloc, FOUR_OPS, &made_up)?;
    let of_no_thread = [
        ("+32 ran 3 0 stop", 4, 33),
        ("+32 ran 7 0 stop", 4, 33),
        ("+32 ran 4294967295 0 done", 4, 33),
        // Its reply goes nowhere.
        ("+31 ran 9 0 request 1", 4, 32),
    ];
    fails(&rt, alloc, FOUR_OPS, &of_no_thread)?;
    // What has no channel is sent to nobody: the owner's reply to it is lost.
    fails(&rt, alloc, NO_CHANNEL, &[("+18 ran 1 0 request 0", 4, 15)])?;
    Ok(())
}

#[test]
fn messages_keep_their_order_and_their_receiver(rt: HostRuntime) -> Result<(), Fail> {
    let alloc = rt.alloc();
    let of_four = [
        // The owner replied twice to op 1.
        ("31 ran 1 1 request 1", 4, 20),
        ("31 ran 1 1 request 3", 4, 20),
        ("32 ran 0 0 done", 4, 32),
    ];
    fails(&rt, alloc, FOUR_OPS, &of_four)?;
    let at_close = [
        // A closing client gives its channels back in device order.
        ("20 ran 1 0 putself 1; 21 ran 1 1 putself 0", 4, 20),
        ("+26 ran 0 1 stop; 28", 4, 27),
    ];
    fails(&rt, alloc, HELD_AT_CLOSE, &at_close)?;
    let of_two = [
        // The owner ran the second client's first two requests in the other order, and so it replied.
        ("61 ran 2 0 request 2; 63 ran 2 1 request 1", 4, 43),
        ("66 ran 1 3 stop", 4, 59),
    ];
    fails(&rt, alloc, SHARED, &of_two)?;
    let of_two_images = [
        ("36 ran 1 0 putself 1; 38 ran 1 1 putself 0", 4, 36),
        ("65 ran 1 1 request 4", 4, 37),
        // The first request went to the other owner, whose reply is lost.
        ("+61 ran 1 0 request 4; 64; 65 ran 1 0 request 5", 4, 34),
    ];
    fails(&rt, alloc, TWO_IMAGES, &of_two_images)?;
    Ok(())
}
