//! Each reply has what the requests before it in the journal make it.
use crate::changes::{fails, holds};
use crate::shared_texts::{ONE_BUFFER, SHARED, THREE_CLIENTS, TWO_IMAGES};
use crate::texts::FOUR_OPS;
use crate::visit_texts::HOLDERS;
use std::test::Fail;

#[test]
fn replies_are_listed_as_they_were_run(rt: HostRuntime) -> Result<(), Fail> {
    let alloc = rt.alloc();
    let of_one = [
        ("28", 5, 18),
        ("27; 28", 5, 18),
        (
            "27 reply 2 bytes abababababababababababababababab; 28 reply 1 ok",
            5,
            27,
        ),
        ("+28 reply 2 bytes abababababababababababababababab", 5, 29),
        ("+26 reply 1 ok", 5, 28),
        ("27 reply 3 ok", 5, 27),
        // One is lacking, so that the client's own line fails.
        ("27 reply 2 ok; 28", 5, 18),
    ];
    fails(&rt, alloc, FOUR_OPS, &of_one)?;
    let of_two_images = [
        // The first went to no owner, and the second client ran none.
        ("+51 reply 7 bytes 00", 5, 52),
        ("+60 reply 0 bytes 00", 5, 61),
    ];
    fails(&rt, alloc, TWO_IMAGES, &of_two_images)?;
    let zeros = [
        (
            "34 reply 2 bytes 00000000000000000000000000000000; 35 reply 1 bytes 00000000000000000000000000000000",
            5,
            34,
        ),
        ("36", 5, 24),
        (
            "36 reply 3 bytes 00000000000000000000000000000001; 47",
            5,
            36,
        ),
    ];
    fails(&rt, alloc, ONE_BUFFER, &zeros)?;
    Ok(())
}

#[test]
fn replies_have_the_answers_of_the_journal(rt: HostRuntime) -> Result<(), Fail> {
    let alloc = rt.alloc();
    let of_one = [
        ("28 reply 2 bytes acababababababababababababababab", 5, 28),
        ("28 reply 2 bytes ababababababababababababababab", 5, 28),
        ("28 reply 2 bytes ababababababababababababababababab", 5, 28),
        ("28 reply 2 ok", 5, 28),
        ("28 reply 2 writes 1", 5, 28),
        ("27 reply 1 writes 1", 5, 27),
        ("27 reply 1 bytes ab", 5, 27),
        ("11 op write 0 0 1 cd", 5, 28),
        ("11 op write 0 1 1 ab", 5, 28),
        ("12 op read 0 1 1", 5, 28),
        ("12 op read 0 0 2", 5, 28),
        ("7 image m 32 4", 5, 28),
        ("12 op flush 0; 28 reply 2 writes 0", 5, 28),
        // The write comes behind the read.
        (
            "11 op read 0 0 1; 12 op write 0 0 1 ab; 27 reply 1 bytes abababababababababababababababab; 28 reply 2 ok",
            5,
            27,
        ),
    ];
    fails(&rt, alloc, FOUR_OPS, &of_one)?;
    let of_two_images = [("51 reply 5 writes 0", 5, 51), ("51 reply 5 ok", 5, 51)];
    fails(&rt, alloc, TWO_IMAGES, &of_two_images)?;
    let with_visits = [
        ("61 reply 1 writes 0", 5, 61),
        ("62 reply 4 bytes 00000000000000000000000000000000", 5, 62),
        ("46; 61 reply 1 writes 2", 5, 33),
    ];
    fails(&rt, alloc, HOLDERS, &with_visits)?;
    Ok(())
}

#[test]
fn a_reader_sees_what_others_wrote_before(rt: HostRuntime) -> Result<(), Fail> {
    let alloc = rt.alloc();
    let of_two = [
        // The writes of both clients count.
        ("41 reply 3 writes 1", 5, 41),
        ("41 reply 3 writes 3", 5, 41),
        // Its own write, as if the other's didn't cover it.
        ("40 reply 2 bytes 02030102030102030102030102030102", 5, 40),
        // The pattern goes on from the write's first byte, and doesn't begin anew in each block.
        (
            "57 reply 2 bytes ffffffffffffffffffffffffffffffff01020301020301020301020301020301",
            5,
            57,
        ),
        ("58 reply 5 bytes ffffffffffffffffffffffffffffffff", 5, 58),
        // By these orders of the journal the first client's write is the last before its read.
        ("60 ran 2 0 request 1; 61 ran 1 0 request 1", 5, 40),
        ("61 ran 1 1 request 2; 62 ran 2 0 request 1", 5, 40),
    ];
    fails(&rt, alloc, SHARED, &of_two)?;
    let of_three = [
        ("44 reply 1 bytes bbbbbbbbbbbbbbbbbbbbbbbbbbbbbbbb", 5, 44),
        ("46 ran 1 0 request 1; 47 ran 2 0 request 1", 5, 44),
        ("47 ran 3 0 request 1; 48 ran 1 0 request 1", 5, 44),
    ];
    fails(&rt, alloc, THREE_CLIENTS, &of_three)?;
    Ok(())
}

#[test]
fn other_journals_have_other_answers(rt: HostRuntime) -> Result<(), Fail> {
    let alloc = rt.alloc();
    let of_one = [
        "11 op write 0 0 1 abab",
        "11 op write 0 0 4 ab; 12 op read 0 3 1",
        "11 op write 0 1 1 ab; 28 reply 2 bytes 00000000000000000000000000000000",
        "12 op flush 0; 28 reply 2 writes 1",
        "11 op flush 0; 27 reply 1 writes 0; 28 reply 2 bytes 00000000000000000000000000000000",
        "11 op read 0 0 1; 12 op write 0 0 1 ab; 27 reply 1 bytes 00000000000000000000000000000000; 28 reply 2 ok",
    ];
    holds(&rt, alloc, FOUR_OPS, &of_one)?;
    let of_two = [
        "40 reply 2 bytes 02030102030102030102030102030102; 61 ran 1 1 request 2; 62 ran 2 0 request 1",
        // Two reads, and a read and a flush, come in any order.
        "62 ran 2 1 request 2; 63 ran 1 1 request 2",
        "63 ran 1 2 request 3; 64 ran 2 1 request 2",
        // A pattern that is longer than a block, read from its second block on.
        "11 op write 0 0 3 000102030405060708090a0b0c0d0e0f10; 57 reply 2 bytes ffffffffffffffffffffffffffffffff0f10000102030405060708090a0b0c0d; 58 reply 5 bytes 000102030405060708090a0b0c0d0e0f",
    ];
    holds(&rt, alloc, SHARED, &of_two)?;
    let of_three = [
        "44 reply 1 bytes bbbbbbbbbbbbbbbbbbbbbbbbbbbbbbbb; 46 ran 1 0 request 1; 47 ran 2 0 request 1",
        "44 reply 1 bytes 00000000000000000000000000000000; 46 ran 3 0 request 1; 47 ran 2 0 request 1; 48 ran 1 0 request 1",
    ];
    holds(&rt, alloc, THREE_CLIENTS, &of_three)?;
    Ok(())
}
