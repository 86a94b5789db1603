//! Message rings.
ghost use Rattle.std.specs.Prelude.{◌≡◌, ◌+◌, ◌≤◌, [], ◌∷◌, Some, IfOk, IsSome, All, length};
ghost use Rattle.lw_latch.specs.RingWord.{most_sent};
ghost use Rattle.lw_ring.specs.Calls.{NamedFrom};
ghost use Rattle.lw_ring.specs.Ends.{IsEnd};

use lw_base::{NoMemory, Tag, Tagged, What};
use lw_ring::{Closing, Pair, RecvEnd, SendEnd, SendRefusal, Settled, ring, settle};
use std::alloc::Global;
use std::sync::Wait;
use std::test::Fail;
use std::thread;
use std::thread::Threads;

#[derive(Clone, Copy, PartialEq, Eq, Debug)]
pub struct Note {
    pub tag: Tag,
    pub value: u8,
}

impl Tagged for Note {
    ghost use Rattle.std.specs.Prelude.{refl};
    ghost use Rattle.lw_tests.specs.declared.rings.Note.{Note};

    type Letter = Note;

    type Family = ();

    ghost letter = { λ n. n };

    ghost tag_of = { λ n. n.tag };

    ghost fits = { λ _ _ _. Unit {0} };

    ghost marked = { λ n s k. record n { tag = record n.tag { sender = s; number = k } } };

    ghost marked_tag = { λ n s k. refl };

    ghost marked_last = { λ n s k t j. refl };

    ghost marked_same = { λ n. refl };

    fn tag(&self) -> Tag {
        self.tag
    }

    fn mark(&mut self, sender: u32, number: u64) {
        self.tag.sender = sender;
        self.tag.number = number;
    }
}

// Sends one note.
pub fn put<R: Wait>(rt: &R, end: &mut SendEnd<Note>, value: u8) -> Result<(), SendRefusal<Note>>
    requires { end.old.family ≡ Some tt }
    ensures ring { (end.new.queue ≡ end.old.queue) × (end.new.latch ≡ end.old.latch) }
    ensures end { (end.new.family ≡ end.old.family) × (end.new.sender ≡ end.old.sender) }
{
    let tag = Tag {
        sender: end.sender(),
        number: end.sent(),
        what: What::Done,
    };
    end.send(rt, Note { tag, value })
}

// So many notes of a sender, numbered from `first` on, with the values 1, 2, ..
fn notes(alloc: Global, sender: u32, first: u64, count: u8) -> Result<Vec<Note>, NoMemory>
    requires { first ≤ most_sent }
    ensures count { IfOk result (λ v. length v.items ≡ count) }
    ensures names { IfOk result (λ v. NamedFrom (λ n. n) (λ n. n.tag) sender first v.items) }
{
    let mut run = Vec::new(alloc);
    for k in 0..count {
        let tag = Tag {
            sender,
            number: first + u64::from(k),
            what: What::Done,
        };
        run.push(Note { tag, value: k + 1 })?;
    }
    Ok(run)
}

// Sends a run of so many notes. A refused one comes back.
fn put_run<R: Wait>(
    rt: &R,
    alloc: Global,
    end: &mut SendEnd<Note>,
    count: u8,
) -> Result<Option<SendRefusal<Vec<Note>>>, NoMemory>
    requires { (1 ≤ count) × (end.old.family ≡ Some tt) }
    ensures { end.new ≡ record end.old { sent = end.new.sent; found = end.new.found } }
{
    let run = notes(alloc, end.sender(), end.sent(), count)?;
    Ok(end.send_run(rt, run).err())
}

// Takes up to `max` notes.
pub fn take<R: Wait>(
    rt: &R,
    alloc: Global,
    recv: &mut RecvEnd<Note>,
    max: usize,
) -> Result<Vec<Note>, NoMemory>
    requires { recv.old.closed ≡ 0 }
    ensures { recv.new ≡ record recv.old { taken = recv.new.taken; hand = recv.new.hand } }
{
    let mut batch = Vec::with_capacity(alloc, max)?;
    recv.take_into(rt, max, &mut batch);
    Ok(batch)
}

// Whether the notes have these values, in this order.
pub fn have(notes: &[Note], values: &[u8]) -> bool {
    if notes.len() != values.len() {
        return false;
    }
    for (note, value) in notes.iter().zip(values) {
        if note.value != *value {
            return false;
        }
    }
    true
}

pub fn ring_of_one(alloc: Global) -> Result<(RecvEnd<Note>, SendEnd<Note>), NoMemory>
    ensures recv { IfOk result (λ r. (r.0.closed ≡ 0) × IsSome r.0.latch) }
    ensures end { IfOk result (λ r. r.1.family ≡ Some tt) }
{
    let (recv, mut ends) = ring::<Note>(alloc, 1, 0)?;
    let end = ends.pop().unwrap();
    Ok((recv, end))
}

fn ring_of_two(alloc: Global) -> Result<(RecvEnd<Note>, SendEnd<Note>, SendEnd<Note>), NoMemory>
    ensures recv { IfOk result (λ r.
        (r.0.senders ≡ 2) × (r.0.known ≡ []) × (r.0.closed ≡ 0) × IsSome r.0.latch) }
    ensures ends { IfOk result (λ r. IsEnd r.0 0 r.1 × IsEnd r.0 1 r.2) }
    ensures family { IfOk result (λ r. (r.1.family ≡ Some tt) × (r.2.family ≡ Some tt)) }
{
    let (recv, mut ends) = ring::<Note>(alloc, 2, 0)?;
    let b = ends.pop().unwrap();
    let a = ends.pop().unwrap();
    Ok((recv, a, b))
}

fn pair(alloc: Global, a: SendEnd<Note>, b: SendEnd<Note>) -> Result<Vec<SendEnd<Note>>, NoMemory>
    ensures { IfOk result (λ v. v.items ≡ a ∷ b ∷ []) }
{
    let mut ends = Vec::new(alloc);
    ends.push(a)?;
    ends.push(b)?;
    Ok(ends)
}

fn settle_two<R: Wait>(
    rt: &R,
    alloc: Global,
    recv: RecvEnd<Note>,
    a: SendEnd<Note>,
    b: SendEnd<Note>,
) -> Result<Settled<Note>, NoMemory>
    requires { (recv.senders ≡ 2) × (recv.known ≡ []) × IsEnd recv 0 a × IsEnd recv 1 b }
{
    match pair(alloc, a, b) {
        Ok(ends) => settle(rt, alloc, recv, ends),
        Err(e) => Err(e),
    }
}

#[test]
fn two_senders_messages_come_in_order_and_a_closed_ring_has_nothing_left(
    rt: HostRuntime,
) -> Result<(), Fail> {
    let (mut recv, mut a, mut b) = ring_of_two(rt.alloc())?;
    assert!(rt; put(&rt, &mut a, 1).is_ok());
    assert!(rt; put(&rt, &mut b, 2).is_ok());
    assert!(rt; put(&rt, &mut a, 3).is_ok());
    let got = take(&rt, rt.alloc(), &mut recv, 8)?;
    assert!(rt; have(&got, &[1, 2, 3]));
    assert!(rt; recv.close() == Closing::Closed);
    assert!(rt;
        matches!(
            put(&rt, &mut b, 4),
            Err(SendRefusal::Exited(Note { value: 4, .. }))
        )
    );
    let settled = settle_two(&rt, rt.alloc(), recv, a, b)?;
    assert!(rt; settled.left.is_empty());
    let wanted = [Pair { sent: 2, run: 2 }, Pair { sent: 1, run: 1 }];
    assert!(rt; settled.counts.as_slice() == wanted.as_slice());
    Ok(())
}

#[test]
fn what_was_not_taken_is_left(rt: HostRuntime) -> Result<(), Fail> {
    let (mut recv, mut a, mut b) = ring_of_two(rt.alloc())?;
    assert!(rt; put(&rt, &mut b, 1).is_ok());
    assert!(rt; put(&rt, &mut a, 2).is_ok());
    assert!(rt; put(&rt, &mut b, 3).is_ok());
    let got = take(&rt, rt.alloc(), &mut recv, 1)?;
    assert!(rt; have(&got, &[1]));
    let settled = settle_two(&rt, rt.alloc(), recv, a, b)?;
    assert!(rt; have(&settled.left, &[2, 3]));
    let wanted = [Pair { sent: 1, run: 0 }, Pair { sent: 2, run: 1 }];
    assert!(rt; settled.counts.as_slice() == wanted.as_slice());
    Ok(())
}

// Sends notes with the values 1 to `count`, and answers how many were sent.
fn put_many<R: Wait>(rt: &R, end: &mut SendEnd<Note>, count: u8) -> u8
    requires { end.old.family ≡ Some tt }
    ensures { end.new.family ≡ end.old.family }
{
    let mut sent = 0;
    for value in 1..=count {
        if put(rt, end, value).is_ok() {
            sent = value;
        }
    }
    sent
}

// Takes the ninth note, and closes.
fn takes_the_ninth_and_closes<R: Wait>(
    rt: &R,
    alloc: Global,
    mut recv: RecvEnd<Note>,
) -> Result<bool, NoMemory>
    requires { IsSome recv.latch × (recv.closed ≡ 0) }
{
    let rest = take(rt, alloc, &mut recv, 8)?;
    let taken = recv.taken();
    let closed = recv.close() == Closing::Closed;
    Ok(closed && taken == 9 && have(&rest, &[9]))
}

#[test]
fn a_full_batch_then_the_rest(rt: HostRuntime) -> Result<(), Fail> {
    let (mut recv, mut end) = ring_of_one(rt.alloc())?;
    let none = take(&rt, rt.alloc(), &mut recv, 8)?;
    assert!(rt; none.is_empty() && put_many(&rt, &mut end, 9) == 9);
    let first = take(&rt, rt.alloc(), &mut recv, 8)?;
    assert!(rt; have(&first, &[1, 2, 3, 4, 5, 6, 7, 8]));
    assert!(rt; recv.close() == Closing::NotYet { seen: 1_179_648 });
    assert!(rt; takes_the_ninth_and_closes(&rt, rt.alloc(), recv)?);
    Ok(())
}

#[test]
fn batches_of_one(rt: HostRuntime) -> Result<(), Fail> {
    let (mut recv, mut end) = ring_of_one(rt.alloc())?;
    assert!(rt; put_many(&rt, &mut end, 2) == 2);
    let first = take(&rt, rt.alloc(), &mut recv, 1)?;
    let second = take(&rt, rt.alloc(), &mut recv, 1)?;
    let third = take(&rt, rt.alloc(), &mut recv, 1)?;
    assert!(rt; have(&first, &[1]) && have(&second, &[2]) && third.is_empty());
    Ok(())
}

// Whether a note is refused because the ring is closed.
fn is_exited<R: Wait>(rt: &R, end: &mut SendEnd<Note>) -> bool
    requires { end.old.family ≡ Some tt }
    ensures { end.new.family ≡ end.old.family }
{
    matches!(
        put(rt, end, 5),
        Err(SendRefusal::Exited(Note { value: 5, .. }))
    )
}

#[test]
fn after_the_close_an_old_end_and_a_fresh_one_are_refused(rt: HostRuntime) -> Result<(), Fail> {
    let (mut recv, mut a, mut b) = ring_of_two(rt.alloc())?;
    assert!(rt; put(&rt, &mut a, 1).is_ok());
    let got = take(&rt, rt.alloc(), &mut recv, 8)?;
    assert!(rt; have(&got, &[1]));
    assert!(rt; recv.close() == Closing::Closed);
    assert!(rt; is_exited(&rt, &mut a) && is_exited(&rt, &mut b) && is_exited(&rt, &mut a));
    assert!(rt; a.sent() == 1 && b.sent() == 0 && b.sender() == 1);
    Ok(())
}

fn ring_of_all(alloc: Global) -> Result<(RecvEnd<Note>, Vec<SendEnd<Note>>), NoMemory>
    ensures recv { IfOk result (λ r. IsSome r.0.latch × (r.0.closed ≡ 0)) }
    ensures family { IfOk result (λ r. All (λ e. e.family ≡ Some tt) r.1.items) }
{
    ring::<Note>(alloc, 127, 0)
}

// Each end sends one note, over four machine threads.
fn put_each<R: Threads + Wait + Sync>(rt: &R, ends: &mut [SendEnd<Note>])
    requires { All (λ e. e.family ≡ Some tt) ends.old }
{
    thread::for_each_mut(
        rt,
        ends,
        4,
        &|_, end| {
            let _answer = put(rt, end, 1);
        },
    );
}

// Takes 17 batches of up to 8 notes, and closes: how many notes there were, their senders' numbers together, and whether
// the ring is closed.
fn take_all<R: Wait>(
    rt: &R,
    alloc: Global,
    mut recv: RecvEnd<Note>,
) -> Result<(u64, u64, bool), NoMemory>
    requires { IsSome recv.latch × (recv.closed ≡ 0) }
{
    let mut count: u64 = 0;
    let mut senders: u64 = 0;
    for _ in 0..17 {
        let batch = take(rt, alloc, &mut recv, 8)?;
        for note in batch.iter() {
            count = count.saturating_add(1);
            senders = senders.saturating_add(u64::from(note.tag().sender));
        }
    }
    Ok((count, senders, recv.close() == Closing::Closed))
}

#[test]
fn each_of_127_senders_reaches_the_receiver(rt: HostRuntime) -> Result<(), Fail> {
    let (recv, mut ends) = ring_of_all(rt.alloc())?;
    put_each(&rt, ends.as_mut_slice());
    assert!(rt; take_all(&rt, rt.alloc(), recv)? == (127, 8001, true));
    Ok(())
}

#[test]
fn a_run_of_nine_is_taken_as_eight_and_one(rt: HostRuntime) -> Result<(), Fail> {
    let (mut recv, mut end) = ring_of_one(rt.alloc())?;
    assert!(rt; put_run(&rt, rt.alloc(), &mut end, 9)?.is_none() && end.sent() == 9);
    let first = take(&rt, rt.alloc(), &mut recv, 8)?;
    assert!(rt; have(&first, &[1, 2, 3, 4, 5, 6, 7, 8]) && recv.taken() == 8);
    // one message of the run is in hand
    assert!(rt; recv.close() == Closing::NotYet { seen: 1_179_648 });
    assert!(rt; takes_the_ninth_and_closes(&rt, rt.alloc(), recv)?);
    Ok(())
}

#[test]
fn a_refused_run_comes_back_in_order(rt: HostRuntime) -> Result<(), Fail> {
    let (mut recv, mut end) = ring_of_one(rt.alloc())?;
    assert!(rt; recv.close() == Closing::Closed);
    let Some(SendRefusal::Exited(back)) = put_run(&rt, rt.alloc(), &mut end, 5)? else {
        panic!(rt; "a closed ring took a run")
    };
    assert!(rt; have(&back, &[1, 2, 3, 4, 5]) && end.sent() == 0);
    Ok(())
}

#[test]
fn runs_and_single_messages_keep_their_order(rt: HostRuntime) -> Result<(), Fail> {
    let (mut recv, mut end) = ring_of_one(rt.alloc())?;
    assert!(rt; put(&rt, &mut end, 10).is_ok());
    assert!(rt; put_run(&rt, rt.alloc(), &mut end, 3)?.is_none());
    assert!(rt; put(&rt, &mut end, 20).is_ok());
    let first = take(&rt, rt.alloc(), &mut recv, 2)?;
    let rest = take(&rt, rt.alloc(), &mut recv, 8)?;
    assert!(rt; have(&first, &[10, 1]) && have(&rest, &[2, 3, 20]));
    Ok(())
}

#[test]
fn the_rest_of_a_run_is_left(rt: HostRuntime) -> Result<(), Fail> {
    let (mut recv, mut a, mut b) = ring_of_two(rt.alloc())?;
    assert!(rt; put_run(&rt, rt.alloc(), &mut a, 3)?.is_none());
    assert!(rt; put(&rt, &mut b, 7).is_ok());
    let first = take(&rt, rt.alloc(), &mut recv, 1)?;
    assert!(rt; have(&first, &[1]));
    let settled = settle_two(&rt, rt.alloc(), recv, a, b)?;
    assert!(rt; have(&settled.left, &[2, 3, 7]));
    let wanted = [Pair { sent: 3, run: 1 }, Pair { sent: 1, run: 0 }];
    assert!(rt; settled.counts.as_slice() == wanted.as_slice());
    Ok(())
}

#[test]
fn the_vector_of_a_run_can_be_used_again(rt: HostRuntime) -> Result<(), Fail> {
    let (mut recv, mut end) = ring_of_one(rt.alloc())?;
    assert!(rt; recv.spare().is_none());
    assert!(rt; put_run(&rt, rt.alloc(), &mut end, 5)?.is_none());
    let taken = take(&rt, rt.alloc(), &mut recv, 8)?;
    let Some(emptied) = recv.spare() else {
        panic!(rt; "no vector was kept")
    };
    assert!(rt; taken.len() == 5 && emptied.is_empty() && emptied.capacity() >= 5);
    assert!(rt; recv.spare().is_none());
    Ok(())
}
