//! A message's number is how many of its sender came before it under that thread.
use crate::changes::fails;
use crate::shared_texts::SHARED;
use crate::texts::FOUR_OPS;
use std::test::Fail;

#[test]
fn messages_are_numbered_by_sender(rt: HostRuntime) -> Result<(), Fail> {
    let alloc = rt.alloc();
    let cases = [
        ("20 ran 2 0 reply 2", 2, 20),
        ("20 ran 2 2 reply 2", 2, 20),
        ("19 ran 2 1 reply 1", 2, 19),
        ("19 ran 2 5 reply 1; 20 ran 2 6 reply 2", 2, 19),
        // Those of other senders don't count.
        ("21 ran 1 2 putself 0", 2, 21),
        ("15 ran 1 1 done", 2, 15),
        ("20 ran 2 2 reply 2; 15 ran 1 1 done", 2, 15),
        ("32 ran 0 18446744073709551615 stop", 2, 32),
    ];
    fails(&rt, alloc, FOUR_OPS, &cases)?;
    // Senders that are no threads are numbered too.
    let unknown = [
        ("+32 ran 7 1 stop", 2, 33),
        ("+32 ran 7 0 stop; +32 ran 7 0 stop", 2, 34),
        ("+32 ran 4294967295 1 done", 2, 33),
    ];
    fails(&rt, alloc, FOUR_OPS, &unknown)?;
    let mixed = [
        ("45 ran 2 1 putself 0; 47 ran 2 0 putself 0", 2, 45),
        ("44 ran 3 2 reply 2; 46 ran 3 1 reply 5", 2, 44),
        ("32 ran 1 1 putself 0; 64 ran 1 3 request 3", 2, 32),
        ("25 ran 1 1 done; 32 ran 1 1 putself 0", 2, 25),
    ];
    fails(&rt, alloc, SHARED, &mixed)?;
    Ok(())
}
