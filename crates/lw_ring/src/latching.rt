//! A ring's latch, where it has one. Where it has none, everybody is let in and nothing is counted.
ghost use Rattle.std.specs.Prelude.{◌≡◌, ℕ, ◌+◌, ◌<◌, ◌≤◌, ◌≢◌, ◌*◌, IsSome};
ghost use Rattle.lw_latch.specs.RingWord.{most_sent, above_all_sent, finished_unit};
ghost use Rattle.lw_ring.specs.Ends.{latch_id, found_of, closed_of, tries_of, seen_of, Outside, Inside, Receiving};

use lw_latch::{Closing, Enter, LatchRecv, LatchSend};

/// Lets a sender in, unless the latch is closed.
pub fn enter(latch: &mut Option<LatchSend>) -> Enter
    requires { (n : ℕ) × Outside latch.old n }
    ensures same { latch_id latch.new ≡ latch_id latch.old }
    ensures inside { result ≡ Enter.Inside → (n : ℕ) → Outside latch.old n → Inside latch.new n }
    ensures never_found { result ≡ Enter.Inside →
        (found_of latch.new ≡ 0) × (found_of latch.old ≡ 0) }
    ensures outside { result ≡ Enter.Closed → (n : ℕ) → Outside latch.old n → Outside latch.new n }
    ensures found { result ≡ Enter.Closed → found_of latch.new ≡ found_of latch.old + 1 }
    ensures latch { result ≡ Enter.Closed → IsSome latch.old }
{
    match latch {
        Some(latch) => latch.enter(),
        None => Enter::Inside,
    }
}

/// Lets it out with `count` more messages finished.
pub fn finish(latch: &mut Option<LatchSend>, count: u64)
    requires inside { (n : ℕ) × Inside latch.old n × (n + count ≤ most_sent) }
    requires some { 1 ≤ count }
    ensures same { (latch_id latch.new ≡ latch_id latch.old) × (found_of latch.new ≡ found_of latch.old) }
    ensures outside { (n : ℕ) → Inside latch.old n → Outside latch.new (n + count) }
{
    if let Some(latch) = latch {
        latch.finish(count);
    }
}

/// Lets it out with nothing finished.
pub fn cancel(latch: &mut Option<LatchSend>)
    requires { (n : ℕ) × Inside latch.old n }
    ensures same { (latch_id latch.new ≡ latch_id latch.old) × (found_of latch.new ≡ found_of latch.old) }
    ensures outside { (n : ℕ) → Inside latch.old n → Outside latch.new n }
{
    if let Some(latch) = latch {
        latch.cancel();
    }
}

/// Closes the latch at `taken` finished messages, if nobody is inside.
pub fn close(latch: &mut Option<LatchRecv>, taken: u64) -> Closing
    requires not_closed { IsSome latch.old × (closed_of latch.old ≡ 0) }
    requires taken { taken < above_all_sent }
    ensures same { (latch_id latch.new ≡ latch_id latch.old) × (found_of latch.new ≡ found_of latch.old) }
    ensures rule { (n finished was : ℕ) →
        Receiving latch.old n finished was → Receiving latch.new n finished taken }
    ensures closed { result ≡ Closing.Closed → closed_of latch.new ≡ 1 }
    ensures no_try { result ≡ Closing.Closed →
        (tries_of latch.new ≡ tries_of latch.old) × (seen_of latch.new ≡ seen_of latch.old) }
    ensures not_closed { (seen : ℕ) → result ≡ Closing.NotYet seen → closed_of latch.new ≡ 0 }
    ensures tried { (seen : ℕ) → result ≡ Closing.NotYet seen →
        (tries_of latch.new ≡ tries_of latch.old + 1) × (seen_of latch.new ≡ seen) }
    ensures other_word { (seen : ℕ) → result ≡ Closing.NotYet seen → seen ≢ taken * finished_unit }
{
    match latch {
        Some(latch) => latch.close(taken),
        None => unreachable!(),
    }
}

/// The receiver takes a sender's seat in. From then on it knows what that sender knew.
pub fn take_in(latch: &mut Option<LatchRecv>, other: Option<LatchSend>)
    requires { (latch_id other ≡ latch_id latch.old) × ((n : ℕ) × Outside other n) }
    ensures latch { latch_id latch.new ≡ latch_id latch.old }
    ensures closed { closed_of latch.new ≡ closed_of latch.old }
    ensures tries { (tries_of latch.new ≡ tries_of latch.old) × (seen_of latch.new ≡ seen_of latch.old) }
    ensures found { found_of latch.new ≡ found_of latch.old + found_of other }
    ensures both { (n finished taken sent : ℕ) →
        Receiving latch.old (n + 1) finished taken → Outside other sent →
        Receiving latch.new n (finished + sent) taken }
{
    match (latch, other) {
        (Some(latch), Some(other)) => latch.take_in(other),
        (None, None) => {}
        _ => unreachable!(),
    }
}

/// What the word tells once all senders are taken in: a closed latch was closed at what they finished, and it is closed
/// if one of them found it so.
pub fn learn(latch: &mut Option<LatchRecv>)
    requires { (finished : ℕ) × (taken : ℕ) × Receiving latch.old 0 finished taken }
    ensures same { latch.new ≡ latch.old }
    ensures settled { (finished taken : ℕ) →
        Receiving latch.old 0 finished taken → closed_of latch.old ≡ 1 → finished ≡ taken }
    ensures found { 1 ≤ found_of latch.old → closed_of latch.old ≡ 1 }
{
    if let Some(latch) = latch {
        latch.learn();
    }
}
