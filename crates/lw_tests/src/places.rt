//! Where light threads stand.
ghost use Rattle.std.specs.Prelude.{◌≡◌, ◌<◌, ◌∷◌, [], IfOk};
ghost use Rattle.lw_place.specs.PlaceSeats.{MayLeave, new_desk};

use lw_base::NoMemory;
use lw_place::{DeskSeat, Place, Start, ThreadSeat, Whole, gather, places};
use std::alloc::Global;
use std::test::Fail;
use std::thread;

// The places of three threads over two reactors, gathered at once.
fn at_home(alloc: Global) -> Result<Whole, NoMemory> {
    let starts = [Start::List(0), Start::List(1), Start::List(0)];
    let (threads, desks) = places(alloc, starts.as_slice(), 2)?;
    gather(alloc, threads, desks)
}

#[test]
fn threads_start_at_their_homes(rt: HostRuntime) -> Result<(), Fail> {
    let whole = at_home(rt.alloc())?;
    let wanted = [Place::List(0), Place::List(1), Place::List(0)];
    assert!(rt; whole.places.as_slice() == wanted.as_slice());
    assert!(rt; whole.done == 0 && !whole.halted);
    Ok(())
}

// One thread, at home, and the desk of its reactor.
fn one_of_each(alloc: Global) -> Result<(ThreadSeat, DeskSeat), NoMemory>
    ensures thread { IfOk result (λ r. r.0 ≡ record { places = r.1.places; thread = 0; place = Place.List 0 }) }
    ensures desk { IfOk result (λ r. r.1 ≡ new_desk r.1.places) }
    ensures counts { IfOk result (λ r. (r.1.places.threads ≡ 1) × (r.1.places.reactors ≡ 1)) }
{
    let starts = [Start::List(0)];
    let (mut threads, mut desks) = places(alloc, starts.as_slice(), 1)?;
    let desk = desks.pop().unwrap();
    let thread = threads.pop().unwrap();
    Ok((thread, desk))
}

// Gathers an ended thread and the desk that retired it, if the desk sees that all threads are retired.
fn gather_ended(
    alloc: Global,
    thread: ThreadSeat,
    mut desk: DeskSeat,
) -> Result<Option<Whole>, NoMemory>
    requires { (thread.places ≡ desk.places) × (thread.place ≡ Place.Ended)
        × (desk.retired ≡ 1) × (desk.places.reactors ≡ 1) × (desk.places.threads ≡ 1) }
{
    if desk.look_done() != 1 {
        return Ok(None);
    }
    let mut threads = Vec::new(alloc);
    threads.push(thread)?;
    let mut desks = Vec::new(alloc);
    desks.push(desk)?;
    Ok(Some(gather(alloc, threads, desks)?))
}

#[test]
fn a_thread_goes_its_way_and_the_desk_sees_it(rt: HostRuntime) -> Result<(), Fail> {
    let (mut thread, mut desk) = one_of_each(rt.alloc())?;
    assert!(rt; thread.thread() == 0 && desk.look(0) == Place::List(0));
    thread.leave_for(0);
    assert!(rt; desk.look(0) == Place::Event(0));
    thread.arrive();
    assert!(rt; desk.look(0) == Place::List(0) && desk.look_done() == 0);
    thread.end();
    desk.retire();
    assert!(rt; thread.place() == Place::Ended && desk.look(0) == Place::Ended);
    assert!(rt; !desk.halted());
    desk.halt();
    assert!(rt; desk.halted());
    let Some(whole) = gather_ended(rt.alloc(), thread, desk)? else {
        panic!(rt; "the desk did not see its own thread")
    };
    assert!(rt; whole.places.as_slice() == [Place::Ended].as_slice());
    assert!(rt; whole.done == 1 && whole.halted);
    Ok(())
}

// The seats and desks of two threads over two reactors.
fn two_of_each(alloc: Global) -> Result<(ThreadSeat, ThreadSeat, DeskSeat, DeskSeat), NoMemory>
    ensures first { IfOk result (λ r. r.0 ≡ record { places = r.2.places; thread = 0; place = Place.List 0 }) }
    ensures second { IfOk result (λ r. r.1 ≡ record { places = r.2.places; thread = 1; place = Place.List 1 }) }
    ensures desks { IfOk result (λ r. (r.2 ≡ new_desk r.2.places) × (r.3 ≡ new_desk r.2.places)) }
    ensures counts { IfOk result (λ r. (r.2.places.threads ≡ 2) × (r.2.places.reactors ≡ 2)) }
{
    let starts = [Start::List(0), Start::List(1)];
    let (mut threads, mut desks) = places(alloc, starts.as_slice(), 2)?;
    let other_desk = desks.pop().unwrap();
    let desk = desks.pop().unwrap();
    let other = threads.pop().unwrap();
    let thread = threads.pop().unwrap();
    Ok((thread, other, desk, other_desk))
}

// The seat of thread 1, which reactor 1 holds, and the desk of reactor 1.
fn one_held(alloc: Global) -> Result<(ThreadSeat, DeskSeat), NoMemory>
    ensures thread { IfOk result (λ r. r.0 ≡ record { places = r.1.places; thread = 1; place = Place.Held 1 }) }
    ensures counts { IfOk result (λ r. (r.1.places.threads ≡ 2) × (r.1.places.reactors ≡ 2)) }
{
    let starts = [Start::List(0), Start::Held(1)];
    let (mut threads, mut desks) = places(alloc, starts.as_slice(), 2)?;
    let desk = desks.pop().unwrap();
    let thread = threads.pop().unwrap();
    Ok((thread, desk))
}

#[test]
fn a_held_thread_starts_in_its_reactors_list(rt: HostRuntime) -> Result<(), Fail> {
    let (mut thread, mut desk) = one_held(rt.alloc())?;
    assert!(rt; desk.look(1) == Place::Held(1) && desk.look(0) == Place::List(0));
    thread.start();
    assert!(rt; desk.look(1) == Place::List(1) && thread.place() == Place::List(1));
    Ok(())
}

// The places of a thread that reactor 1 holds and of one in a list, gathered at once.
fn held_at_home(alloc: Global) -> Result<Whole, NoMemory> {
    let starts = [Start::Held(1), Start::List(0)];
    let (threads, desks) = places(alloc, starts.as_slice(), 2)?;
    gather(alloc, threads, desks)
}

#[test]
fn a_held_thread_is_gathered_where_it_is_held(rt: HostRuntime) -> Result<(), Fail> {
    let whole = held_at_home(rt.alloc())?;
    assert!(rt; whole.places.as_slice() == [Place::Held(1), Place::List(0)].as_slice());
    assert!(rt; whole.done == 0 && !whole.halted);
    Ok(())
}

// Looks at a thread and at the count, many times.
fn look_often(desk: &mut DeskSeat, thread: u32)
    requires { thread < desk.old.places.threads }
    ensures { (desk.new.places ≡ desk.old.places) × (desk.new.retired ≡ desk.old.retired)
        × (desk.new.halted ≡ desk.old.halted) }
{
    for _ in 0..1000 {
        let _place = desk.look(thread);
        let _done = desk.look_done();
    }
}

// A thread goes to reactor 1 and to reactor 0, and ends, while its desk looks at another thread.
fn goes_and_looks(mut thread: ThreadSeat, mut desk: DeskSeat, other: u32) -> (ThreadSeat, DeskSeat)
    requires thread { MayLeave thread.place × (thread.places.reactors ≡ 2) }
    requires desk { (desk.retired ≡ 0) × (desk.halted ≡ 0) × (other < desk.places.threads) }
    ensures thread { result.0 ≡ record thread { place = Place.Ended } }
    ensures desk { (result.1.places ≡ desk.places) × (result.1.retired ≡ 1) × (result.1.halted ≡ 0) }
{
    thread.leave_for(1);
    look_often(&mut desk, other);
    thread.arrive();
    thread.leave_for(0);
    look_often(&mut desk, other);
    thread.arrive();
    thread.end();
    desk.retire();
    look_often(&mut desk, other);
    (thread, desk)
}

// Gathers both threads and both desks.
fn gather_two(
    alloc: Global,
    thread: ThreadSeat,
    other: ThreadSeat,
    desk: DeskSeat,
    other_desk: DeskSeat,
) -> Result<Whole, NoMemory>
    requires one_table { (thread.places ≡ desk.places) × (other.places ≡ desk.places) × (other_desk.places ≡ desk.places) }
    requires counts { (desk.places.threads ≡ 2) × (desk.places.reactors ≡ 2) }
{
    let mut threads = Vec::new(alloc);
    threads.push(thread)?;
    threads.push(other)?;
    let mut desks = Vec::new(alloc);
    desks.push(desk)?;
    desks.push(other_desk)?;
    gather(alloc, threads, desks)
}

#[test]
fn two_machine_threads_move_end_and_look_at_each_other(rt: HostRuntime) -> Result<(), Fail> {
    let (a, b, desk_a, desk_b) = two_of_each(rt.alloc())?;
    let ((a, desk_a), (b, desk_b)) = thread::join(
        &rt,
        move || goes_and_looks(a, desk_a, 1),
        move || goes_and_looks(b, desk_b, 0),
    );
    let whole = gather_two(rt.alloc(), a, b, desk_a, desk_b)?;
    assert!(rt; whole.places.as_slice() == [Place::Ended, Place::Ended].as_slice());
    assert!(rt; whole.done == 2 && !whole.halted);
    Ok(())
}
