//! What all threads told of a device is what its line says.
use crate::changes::{fails, holds};
use crate::shared_texts::{SHUT, THREE_CLIENTS, TWO_IMAGES};
use crate::texts::{FOUR_OPS, HELD_AT_CLOSE, UNREGISTERS, WITHOUT_OPS};
use std::test::Fail;

#[test]
fn ordinals_count_the_channels(rt: HostRuntime) -> Result<(), Fail> {
    let alloc = rt.alloc();
    let of_one = [
        ("33 device 0 2 0 1", 6, 33),
        ("33 device 0 0 0 1", 6, 33),
        ("33 device 0 18446744073709551615 0 1", 6, 33),
        ("22 did 0 0 given 1", 6, 33),
        ("22 did 0 0 given 18446744073709551615", 6, 33),
        ("16 did 1 0 began 0", 6, 33),
        ("16 did 1 0 began 2", 6, 33),
        ("16 did 1 0 began 2; 33 device 0 2 0 1", 6, 33),
        (
            "16 did 1 0 began 18446744073709551615; 33 device 0 18446744073709551615 0 1",
            6,
            33,
        ),
    ];
    fails(&rt, alloc, FOUR_OPS, &of_one)?;
    let none_given = [("12 did 1 0 began 1; 18 device 0 1 0 1", 6, 18)];
    fails(&rt, alloc, WITHOUT_OPS, &none_given)?;
    let of_three = [
        ("27 did 0 0 given 0", 6, 50),
        ("41 did 0 0 given 3", 6, 50),
        ("22 did 3 0 began 2; 50 device 0 2 0 1", 6, 50),
    ];
    fails(&rt, alloc, THREE_CLIENTS, &of_three)?;
    // Clients get their ordinals in any order.
    holds(
        &rt,
        alloc,
        THREE_CLIENTS,
        &["27 did 0 0 given 2; 41 did 0 0 given 1"],
    )?;
    // Each device has ordinals of its own. Op 0 is on device 1.
    let of_two_devices = [
        ("22 did 0 0 given 1", 6, 30),
        ("23 did 0 1 given 1", 6, 29),
        ("22 did 0 0 given 1; 23 did 0 1 given 1", 6, 29),
        ("29 device 0 0 0 1; 30 device 1 0 0 1", 6, 29),
    ];
    fails(&rt, alloc, HELD_AT_CLOSE, &of_two_devices)?;
    Ok(())
}

#[test]
fn one_thread_unregisters_and_is_called_back(rt: HostRuntime) -> Result<(), Fail> {
    let alloc = rt.alloc();
    let of_one = [
        ("33 device 0 1 1 1", 6, 33),
        ("33 device 0 1 4294967295 1", 6, 33),
        ("33 device 0 1 0 0", 6, 33),
        ("33 device 0 1 0 4294967295", 6, 33),
        ("16 did 1 0 already", 6, 33),
        ("+17 called 1 0", 6, 34),
        // Before the line that began.
        ("17 called 0 0", 6, 33),
        // On another thread, or on two.
        ("17; +26 called 3 0", 6, 33),
        ("17; +32 called 3 0", 6, 33),
        ("+26 called 3 0", 6, 34),
    ];
    fails(&rt, alloc, FOUR_OPS, &of_one)?;
    let without_ops = [("13", 6, 17), ("18 device 0 0 1 1", 6, 18)];
    fails(&rt, alloc, WITHOUT_OPS, &without_ops)?;
    let of_two_devices = [
        ("18", 6, 29),
        ("18 called 1 0", 6, 29),
        ("30 device 1 1 0 0", 6, 30),
    ];
    fails(&rt, alloc, HELD_AT_CLOSE, &of_two_devices)?;
    let by_two_threads = [
        ("60", 6, 67),
        ("60 called 0 0", 6, 67),
        ("33 called 2 1", 6, 67),
        ("32 did 2 1 began 1", 6, 68),
        ("67 device 0 1 2 1", 6, 67),
        ("68 device 1 1 0 1", 6, 68),
    ];
    fails(&rt, alloc, TWO_IMAGES, &by_two_threads)?;
    Ok(())
}

#[test]
fn no_callback_comes_while_a_channel_is_held(rt: HostRuntime) -> Result<(), Fail> {
    let alloc = rt.alloc();
    let cases = [
        ("22 called 0 0", 6, 25),
        ("15 did 1 0 began 1", 6, 25),
        ("25 device 0 1 0 1", 6, 25),
        ("19 did 0 1 began 0; 25 device 0 0 1 1", 6, 25),
    ];
    fails(&rt, alloc, UNREGISTERS, &cases)?;
    // The four-op client with an unregister in the place of its put.
    let unregisters = [
        "13 op unregister 0; 16 did 1 0 already; 17; 25 did 2 3 began 1; +26 called 3 0; 33 device 0 1 1 1",
    ];
    holds(&rt, alloc, FOUR_OPS, &unregisters)?;
    let called_early = [(
        "13 op unregister 0; 16 did 1 0 already; 17; 25 did 2 3 began 1; +26 called 2 0; 33 device 0 1 1 1",
        6,
        33,
    )];
    fails(&rt, alloc, FOUR_OPS, &called_early)?;
    Ok(())
}

#[test]
fn a_shut_device_stays_shut(rt: HostRuntime) -> Result<(), Fail> {
    let alloc = rt.alloc();
    let held = [
        ("20 did 0 2 again 0", 6, 25),
        ("12 op unregister 0; 20 did 0 2 began 1", 6, 25),
        // It was told that another had begun, and then it began.
        (
            "12 op unregister 0; 19 did 0 1 already; 20 did 0 2 began 1",
            6,
            25,
        ),
    ];
    fails(&rt, alloc, UNREGISTERS, &held)?;
    let of_two_images = [
        ("54 did 0 1 already; 55 did 0 2 began 1", 6, 68),
        // A channel is given after the thread itself began.
        (
            "+52 ran 2 0 putself 1; 54 did 0 1 began 2; 56 did 0 3 given 1; 58 did 0 5 deferred; 60 called 1 1; 68 device 1 2 2 1",
            6,
            69,
        ),
        // A visit starts then, and goes its way.
        (
            "+28 ran 2 0 visit 2 4 1; 29 ran 2 1 done; 31 did 3 0 began 1; 32 did 3 1 already; 33 called 3 0; +52 ran 0 0 visit 2 4 1; +52 ran 4 0 visited 4; 57 did 0 4 started; 58 did 2 5 nochannel; 59 did 2 6 closed; +60 seen 4; +61 ran 2 0 visit 2 4 1; +63 ran 3 0 visit 2 4 1",
            6,
            74,
        ),
    ];
    fails(&rt, alloc, TWO_IMAGES, &of_two_images)?;
    Ok(())
}

#[test]
fn no_client_is_refused_before_the_app_begins(rt: HostRuntime) -> Result<(), Fail> {
    let alloc = rt.alloc();
    let cases = [
        // Both began.
        ("20 did 3 0 began 1", 6, 38),
        ("31", 6, 37),
        // A get and an unregister were refused although the app began.
        (
            "20 did 3 0 began 1; +20 called 3 0; 29 did 0 0 already; 31; 38 device 0 1 0 1",
            6,
            38,
        ),
        // A get alone.
        (
            "13 op wait 5; 20 did 3 0 began 1; +20 called 3 0; 29 did 0 0 waited; 31; 38 device 0 1 0 1",
            6,
            38,
        ),
    ];
    fails(&rt, alloc, SHUT, &cases)?;
    let lawful = [
        // The third client got its channel in time.
        "29 did 0 0 began 2; +32 ran 3 0 putself 0; 33 did 0 0 given 1; 38 device 0 2 2 1",
        // The app began, and no client was refused.
        "13 op wait 5; 15 op wait 5; 20 did 3 0 began 1; +20 called 3 0; 29 did 0 0 waited; 31; 33 did 0 0 waited; 38 device 0 1 0 1",
    ];
    holds(&rt, alloc, SHUT, &lawful)?;
    let by_the_app = [(
        "+15 called 1 0; 15 did 1 0 began 1; 19 did 0 1 already; 22; 25 device 0 1 0 1",
        6,
        25,
    )];
    fails(&rt, alloc, UNREGISTERS, &by_the_app)?;
    Ok(())
}
