//! The load figures of light threads.
ghost use Rattle.std.specs.Prelude.{◌≡◌, ◌+◌, ◌<◌, ◌≤◌, ◌*◌, ◌∷◌, [], length, IfOk};
ghost use Rattle.lw_load.specs.LoadEnds.{new_pass, not_read};

use lw_base::NoMemory;
use lw_load::{Figures, LoadPass, LoadReader, loads};
use std::alloc::Global;
use std::sync::Wait;
use std::test::Fail;
use std::thread;

// One thread's pass, and the reader.
fn one(alloc: Global) -> Result<(LoadPass, LoadReader), NoMemory>
    ensures thread { IfOk result (λ r. (r.0.thread ≡ 0) × (r.0.busy ≡ 0) × (r.0.idle ≡ 0)) }
    ensures reader { IfOk result (λ r. length r.1 ≡ 1) }
{
    let (mut passes, reader) = loads(alloc, 1)?;
    let pass = passes.remove(0);
    Ok((pass, reader))
}

#[test]
fn what_is_published_is_read(rt: HostRuntime) -> Result<(), Fail> {
    let (mut pass, mut reader) = one(rt.alloc())?;
    assert!(rt; reader.read(&rt, 0) == Figures { busy: 0, idle: 0 });
    pass.publish(&rt, 3, 4);
    assert!(rt; reader.read(&rt, 0) == Figures { busy: 3, idle: 4 });
    pass.publish(&rt, 3, 4);
    assert!(rt; pass.last() == Figures { busy: 3, idle: 4 } && pass.thread() == 0);
    pass.publish(&rt, 3, u64::MAX);
    assert!(rt;
        reader.read(&rt, 0)
            == Figures {
                busy: 3,
                idle: u64::MAX
            }
    );
    Ok(())
}

// The passes of two threads, and the reader.
fn two(alloc: Global) -> Result<(LoadPass, LoadPass, LoadReader), NoMemory>
    ensures first { IfOk result (λ r. (r.0.thread ≡ 0) × (r.0.busy ≡ 0) × (r.0.idle ≡ 0)) }
    ensures second { IfOk result (λ r. (r.1.thread ≡ 1) × (r.1.busy ≡ 0) × (r.1.idle ≡ 0)) }
    ensures reader { IfOk result (λ r. length r.2 ≡ 2) }
{
    let (mut passes, reader) = loads(alloc, 2)?;
    let second = passes.remove(1);
    let first = passes.remove(0);
    Ok((first, second, reader))
}

#[test]
fn each_thread_has_its_own_figures(rt: HostRuntime) -> Result<(), Fail> {
    let (mut first, mut second, mut reader) = two(rt.alloc())?;
    second.publish(&rt, 7, 0);
    assert!(rt; reader.read(&rt, 0) == Figures { busy: 0, idle: 0 });
    assert!(rt; reader.read(&rt, 1) == Figures { busy: 7, idle: 0 });
    first.publish(&rt, 0, 9);
    assert!(rt; reader.read(&rt, 0) == Figures { busy: 0, idle: 9 });
    assert!(rt; reader.read(&rt, 1) == Figures { busy: 7, idle: 0 });
    Ok(())
}

// Publishes many pairs, of which the second is twice the first.
fn publish_often<R: Wait>(rt: &R, mut pass: LoadPass)
    requires { (pass.busy ≡ 0) × (pass.idle ≡ 0) }
{
    for busy in 0..2000u64 {
        pass.publish(rt, busy, 2 * busy);
    }
}

// Reads as often, and says whether each pair was whole.
fn read_often<R: Wait>(rt: &R, mut reader: LoadReader) -> (LoadReader, bool)
    requires { length reader ≡ 1 }
    ensures { length result.0 ≡ 1 }
{
    let mut whole = true;
    for _ in 0..2000 {
        let found = reader.read(rt, 0);
        whole = whole && found.idle / 2 == found.busy && found.idle % 2 == 0;
    }
    (reader, whole)
}

#[test]
fn a_machine_thread_publishes_while_another_reads(rt: HostRuntime) -> Result<(), Fail> {
    let (pass, reader) = one(rt.alloc())?;
    let ((), (mut reader, whole)) = thread::join(
        &rt,
        || publish_often(&rt, pass),
        || read_often(&rt, reader),
    );
    assert!(rt; whole);
    let last = Figures {
        busy: 1999,
        idle: 3998,
    };
    assert!(rt; reader.read(&rt, 0) == last);
    Ok(())
}
