use lw_base::{Clock, Failed, ListClock, MemSink, MemSource, Sink, Source};
use std::test::Fail;

#[test]
fn a_source_moves_pieces(rt: HostRuntime) -> Result<(), Fail> {
    let alloc = rt.alloc();
    let mut source = MemSource::new(vec![in alloc; 1, 2, 3]?, 2, vec![in alloc; 7]?);
    let mut into = [0u8; 4];
    assert!(rt; source.read(&mut into) == Ok(2));
    assert!(rt; into == [1, 2, 0, 0]);
    assert!(rt; source.read(&mut into) == Ok(1));
    assert!(rt; into[0] == 3 && !source.ended);
    assert!(rt; source.read(&mut into) == Ok(0));
    assert!(rt; source.ended && source.faults == 0 && source.calls == 3);
    Ok(())
}

#[test]
fn a_source_fails_where_told(rt: HostRuntime) -> Result<(), Fail> {
    let alloc = rt.alloc();
    let mut source = MemSource::new(vec![in alloc; 1, 2, 3]?, 2, vec![in alloc; 1]?);
    let mut into = [0u8; 4];
    assert!(rt; source.read(&mut into) == Ok(2));
    assert!(rt; source.read(&mut into) == Err(Failed));
    assert!(rt; into == [1, 2, 0, 0] && source.read == 2);
    assert!(rt; source.ended && source.faults == 1 && source.calls == 2);
    Ok(())
}

#[test]
fn a_sink_takes_what_it_has_room_for(rt: HostRuntime) -> Result<(), Fail> {
    let alloc = rt.alloc();
    let mut sink = MemSink::new(Vec::with_capacity(alloc, 3)?, 2, vec![in alloc; 1]?);
    let room = sink.bytes.capacity();
    assert!(rt; sink.write(&[1, 2, 3]) == Ok(2));
    assert!(rt; sink.write(&[3]) == Err(Failed));
    for _ in 2..room {
        assert!(rt; sink.write(&[3]) == Ok(1));
    }
    assert!(rt; sink.write(&[4]) == Err(Failed));
    assert!(rt; sink.faults == 2 && sink.bytes.len() == room);
    Ok(())
}

#[test]
fn a_list_clock_repeats_its_last_reading(rt: HostRuntime) -> Result<(), Fail> {
    let alloc = rt.alloc();
    let mut clock = ListClock::new(vec![in alloc; 5, 3]?);
    for wanted in [5, 3, 3, 3] {
        assert_eq!(rt; clock.now(), wanted);
    }
    let mut none = ListClock::new(Vec::new(alloc));
    assert_eq!(rt; none.now(), 0);
    Ok(())
}
