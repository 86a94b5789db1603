use lw_walk::{Walked, walk_text};
use lw_world::{Stage, Standing, World, WorldEvent, WorldRefusal};
use std::alloc::Global;
use std::test::Fail;

// The bad line of a text, or none.
fn bad_line(alloc: Global, text: &str) -> Result<Option<u64>, Fail> {
    match walk_text(alloc, text.as_bytes())? {
        Walked::BadLine { line } => Ok(Some(line)),
        Walked::Text(_) => Ok(None),
    }
}

// Whether a text has this answer.
fn is_answered(alloc: Global, text: &str, answer: &str) -> Result<bool, Fail> {
    match walk_text(alloc, text.as_bytes())? {
        Walked::BadLine { .. } => Ok(false),
        Walked::Text(bytes) => Ok(bytes.as_slice() == answer.as_bytes()),
    }
}

#[test]
fn a_device_fires_once_it_is_free_and_a_thread_ends_once_it_has_run_all(
    rt: HostRuntime,
) -> Result<(), Fail> {
    let text =
        "world 2 2 1\ngive 0 0\nshut 1 0\ngive 1 0\nfire 1 0\ndestroy 0 0\nfire 1 0\nsend 0 1\nend 1\nrun 1 0\nleave 1 0\nrun 1 0\narrive 1\nend 1\nsend 0 1\nsleep 1\n";
    let answer =
        "1 ok\n2 ok\n3 refused 7\n4 refused 11\n5 ok\n6 ok\n7 ok\n8 refused 5\n9 ok\n10 ok\n11 refused 3\n12 ok\n13 ok\n14 refused 2\n15 ok\nthread 0 list 0\nthread 1 ended\npair 0 1 1 1\ndevice 0 fired 0\nreactor 0 awake\nreactor 1 asleep\n";
    assert!(rt; is_answered(rt.alloc(), text, answer)?);
    Ok(())
}

// What each event of the walk below is answered, 0 for `ok`.
const REFUSED: [u32; 73] = [
    1, 1, 1, 1, 1, 1, 1, 1, 1, 1, 1, 1, 1, 3, 4, 3, 8, 10, 12, 3, 0, 9, 0, 9, 6, 0, 5, 0, 9, 7, 7,
    10, 11, 0, 11, 0, 11, 0, 11, 0, 9, 0, 4, 4, 0, 4, 4, 4, 4, 4, 4, 4, 3, 12, 0, 0, 9, 4, 0, 0, 0,
    0, 2, 2, 2, 2, 2, 2, 2, 2, 2, 2, 3,
];

#[test]
fn each_event_is_refused_by_the_least_refusal(rt: HostRuntime) -> Result<(), Fail> {
    let unknown =
        "world 3 2 2\nsend 0 3\nrun 3 0\nleave 0 2\narrive 3\nend 3\ngive 0 2\ndestroy 0 2\nshut 3 0\nfire 0 2\nvisit 3 0\nunvisit 0 2\nsleep 2\nwake 2\n";
    let fresh = "run 0 1\narrive 0\nunvisit 0 0\ndestroy 0 0\nfire 0 0\nsleep 0\nwake 0\n";
    let held =
        "give 0 0\ngive 0 0\nvisit 0 0\nvisit 0 0\nend 0\nsend 1 0\nend 0\nshut 2 0\nshut 0 0\ngive 1 0\nvisit 1 0\nfire 0 0\nfire 2 0\ndestroy 0 0\nfire 2 0\nrun 0 1\nend 0\nunvisit 0 0\nend 2\nfire 2 0\nfire 2 0\n";
    let away =
        "leave 0 1\nleave 0 1\nsend 0 1\nsend 1 0\nrun 0 1\nend 0\ngive 0 1\ndestroy 0 1\nshut 0 1\nfire 0 1\nvisit 0 1\nunvisit 0 1\nsleep 1\nleave 1 0\nsleep 1\nsleep 1\narrive 0\nwake 1\narrive 0\nrun 0 1\nend 0\n";
    let ended =
        "end 0\nsend 2 0\nleave 0 0\narrive 0\ngive 0 1\ndestroy 0 1\nshut 0 1\nfire 0 1\nvisit 0 1\nunvisit 0 1\nrun 0 1\n";
    let mut text = String::new(rt.alloc());
    for part in [unknown, fresh, held, away, ended] {
        text.push_str(part)?;
    }
    let mut answer = String::new(rt.alloc());
    for (place, refused) in REFUSED.iter().enumerate() {
        let number = place + 1;
        if *refused == 0 {
            writeln!(answer, "{} ok", number)?;
        } else {
            writeln!(answer, "{} refused {}", number, *refused)?;
        }
    }
    answer.push_str(
        "thread 0 ended\nthread 1 event 0\nthread 2 list 0\npair 1 0 2 2\ndevice 0 fired 0\ndevice 1 open 0\nreactor 0 awake\nreactor 1 awake\n",
    )?;
    assert!(rt; is_answered(rt.alloc(), text.as_str(), answer.as_str())?);
    Ok(())
}

#[test]
fn the_first_bad_line_is_told(rt: HostRuntime) -> Result<(), Fail> {
    let alloc = rt.alloc();
    for first in [
        "",
        "\n",
        "world 1 1 0",
        "world 0 1 0\n",
        "world 82 1 0\n",
        "world 1 0 0\n",
        "world 1 17 0\n",
        "world 1 1 17\n",
        "world 1 1\n",
        "world 1 1 0 \n",
        "world 01 1 0\n",
        "World 1 1 0\nend\n",
    ] {
        assert!(rt; bad_line(alloc, first)? == Some(1));
    }
    for second in [
        "world 1 1 0\nend 0",
        "world 1 1 0\nend 4294967296\n",
        "world 1 1 0\nend 00\n",
        "world 1 1 0\nend -0\n",
        "world 1 1 0\nsend 0  0\n",
        "world 1 1 0\n\nend 0\n",
        "world 1 1 0\nwake 0 0\n",
        "world 1 1 0\nsend 0\nend\n",
        "world 1 1 0\n end 0\n",
        "world 1 1 0\nstop 0\n",
    ] {
        assert!(rt; bad_line(alloc, second)? == Some(2));
    }
    assert!(rt; bad_line(alloc, "world 1 1 0\nend 0\nend\n")? == Some(3));
    let greatest = "world 1 1 0\nend 4294967295\n";
    assert!(rt;
        is_answered(
            alloc,
            greatest,
            "1 refused 1\nthread 0 list 0\nreactor 0 awake\n"
        )?
    );
    Ok(())
}

#[test]
fn a_world_is_stepped_and_asked(rt: HostRuntime) -> Result<(), Fail> {
    let mut world = World::new(rt.alloc(), 2, 1, 1)?;
    let send = WorldEvent::Send {
        sender: 0,
        receiver: 1,
    };
    assert!(rt; world.step(&send) == Ok(()));
    assert!(rt; world.step(&WorldEvent::End { thread: 1 }) == Err(WorldRefusal::Unrun));
    assert!(rt; WorldRefusal::Unrun.number() == 5);
    assert!(rt; world.threads() == 2 && world.reactors() == 1 && world.devices() == 1);
    assert!(rt; world.sent(0, 1) == 1 && world.run(0, 1) == 0);
    assert!(rt; world.standing(1) == Standing::List { reactor: 0 });
    assert!(rt; world.stage(0) == Stage::Open && world.owners(0) == 0 && !world.sleeps(0));
    Ok(())
}
