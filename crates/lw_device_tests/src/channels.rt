//! A thread's channels, counted by references.
ghost use Rattle.std.specs.Prelude.{◌≡◌, ◌≤◌, IfOk};
ghost use Rattle.lw_channel.specs.Channels.{new_set};
ghost use Rattle.lw_device_tests.specs.Registries.{latch_of, row_of};

use crate::devices::{one_row, two_rows};
use lw_base::NoMemory;
use lw_channel::{After, Already, ChannelSet, Firing, GetRefusal, Got, Hold, NoChannel, Put};
use std::alloc::Global;
use std::test::Fail;

// The set of a registry's one thread, with one device.
pub fn one_set(alloc: Global) -> Result<ChannelSet, NoMemory>
    ensures latch { IfOk result (λ s. (latch_of s.row).seats ≡ 1) }
    ensures set { IfOk result (λ s. s ≡ new_set (row_of (latch_of s.row) 0)) }
{
    ChannelSet::new(alloc, one_row(alloc)?)
}

// The sets of a registry's two threads, with one device.
pub fn two_sets(alloc: Global) -> Result<(ChannelSet, ChannelSet), NoMemory>
    ensures { IfOk result (λ s.
        (s.0 ≡ new_set (row_of (latch_of s.0.row) 0)) × (s.1 ≡ new_set (row_of (latch_of s.0.row) 1))) }
{
    let (a, b) = two_rows(alloc)?;
    Ok((ChannelSet::new(alloc, a)?, ChannelSet::new(alloc, b)?))
}

#[test]
fn the_last_put_defers_and_its_message_destroys(rt: HostRuntime) -> Result<(), Fail> {
    let mut set = one_set(rt.alloc())?;
    assert!(rt; set.is_empty() && !set.holds(0) && set.count(0) == 0);
    assert!(rt;
        set.get(0)
            == Ok(Got {
                ordinal: 0,
                made: true
            })
    );
    assert!(rt;
        set.get(0)
            == Ok(Got {
                ordinal: 0,
                made: false
            })
    );
    assert!(rt; set.get(1) == Err(GetRefusal::NoDevice));
    assert!(rt; set.put(0) == Ok(Put::Counted));
    set.note_submit(0);
    assert!(rt; set.submitted(0) == 1 && set.count(0) == 1);
    assert!(rt; set.put(0) == Ok(Put::Deferred));
    assert!(rt; set.put(0) == Err(NoChannel) && set.put_all(0) == Err(NoChannel));
    assert!(rt; set.holds(0) && !set.is_empty());
    assert!(rt; set.put_message(0) == After::Destroyed);
    assert!(rt; set.is_empty() && set.submitted(0) == 0);
    assert!(rt; set.unregister(0) == Ok(1));
    assert!(rt; set.callback_due(0) == Firing::Fired);
    Ok(())
}

#[test]
fn a_get_in_between_keeps_the_channel(rt: HostRuntime) -> Result<(), Fail> {
    let mut set = one_set(rt.alloc())?;
    assert!(rt;
        set.get(0)
            == Ok(Got {
                ordinal: 0,
                made: true
            })
    );
    assert!(rt; set.put(0) == Ok(Put::Deferred));
    assert!(rt;
        set.get(0)
            == Ok(Got {
                ordinal: 0,
                made: false
            })
    );
    set.note_submit(0);
    assert!(rt; set.put_message(0) == After::Kept);
    assert!(rt; set.holds(0) && set.submitted(0) == 1);
    assert!(rt; set.put_all(0) == Ok(Put::Deferred));
    assert!(rt; set.put_message(0) == After::Destroyed);
    assert!(rt; set.unregister(0) == Ok(1));
    assert!(rt; set.callback_due(0) == Firing::Fired);
    assert!(rt; set.get(0) == Err(GetRefusal::Shut));
    Ok(())
}

#[test]
fn of_two_pending_messages_the_second_destroys(rt: HostRuntime) -> Result<(), Fail> {
    let mut set = one_set(rt.alloc())?;
    assert!(rt; set.get(0).is_ok());
    assert!(rt; set.put(0) == Ok(Put::Deferred));
    assert!(rt; set.get(0).is_ok());
    assert!(rt; set.put(0) == Ok(Put::Deferred));
    assert!(rt; set.put_message(0) == After::Kept && set.holds(0));
    assert!(rt; set.put_message(0) == After::Destroyed && !set.holds(0));
    Ok(())
}

#[test]
fn a_new_channel_counts_its_own_requests(rt: HostRuntime) -> Result<(), Fail> {
    let mut set = one_set(rt.alloc())?;
    assert!(rt;
        set.get(0)
            == Ok(Got {
                ordinal: 0,
                made: true
            })
    );
    set.note_submit(0);
    assert!(rt; set.put(0) == Ok(Put::Deferred));
    assert!(rt; set.put_message(0) == After::Destroyed);
    assert!(rt;
        set.get(0)
            == Ok(Got {
                ordinal: 1,
                made: true
            })
    );
    assert!(rt; set.submitted(0) == 0);
    Ok(())
}

#[test]
fn a_shut_device_refuses_a_get_where_the_channel_stands(rt: HostRuntime) -> Result<(), Fail> {
    let (mut a, mut b) = two_sets(rt.alloc())?;
    assert!(rt;
        a.get(0)
            == Ok(Got {
                ordinal: 0,
                made: true
            })
    );
    assert!(rt; b.begin_visit(0) == Hold::Held);
    b.end_visit(0);
    assert!(rt; b.unregister(0) == Ok(1));
    assert!(rt; a.get(0) == Err(GetRefusal::Shut) && a.unregister(0) == Err(Already));
    assert!(rt; a.begin_visit(0) == Hold::Shut && a.count(0) == 1);
    Ok(())
}

#[test]
fn a_set_knows_what_the_one_that_it_took_in_had_begun(rt: HostRuntime) -> Result<(), Fail> {
    let (mut a, mut b) = two_sets(rt.alloc())?;
    assert!(rt; b.unregister(0) == Ok(0));
    assert!(rt; b.callback_due(0) == Firing::Fired);
    a.take_in(b);
    assert!(rt; a.unregister(0) == Err(Already));
    assert!(rt; a.into_row().thread() == 0);
    Ok(())
}
