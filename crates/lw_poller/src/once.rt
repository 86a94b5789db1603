//! What one poll does in all.
ghost use Rattle.std.specs.Prelude.{◌≡◌, ℕ, List};
ghost use Rattle.lw_poller.specs.Pollers.{AreKept, Pollers, times};
ghost use Rattle.lw_poller.specs.Changes.{Pauses};
ghost use Rattle.lw_poller.specs.OnePoll.{Call, AreCalls, GivenOnce, IsPaused, NeverGiven, all_but, all_numbers};

/// In one poll each number is given once at most, whatever is added, paused, resumed and removed meanwhile.
pub fn pollers_are_called_once()
    ensures { (s : Pollers) (calls : List Call) → AreCalls all_numbers s calls → GivenOnce calls }
{}

/// A number that no live poller had at some time in a poll isn't given from then on in that poll. So neither a poller that was
/// added in it is called, nor one that was removed in it.
pub fn neither_added_nor_removed_pollers_are_called()
    ensures { (s : Pollers) (calls : List Call) (number : ℕ) → AreCalls all_numbers s calls → times number s ≡ 0 → NeverGiven number calls }
{}

/// A set that `pause` leaves has the poller paused.
pub fn a_pause_leaves_a_poller_paused()
    ensures { (s : Pollers) (t : Pollers) (number : ℕ) → AreKept s → Pauses number s t → IsPaused number t }
{}

/// A poller that is paused at some time in a poll isn't given from then on in that poll, unless it is resumed in it.
pub fn paused_pollers_are_not_called()
    ensures { (s : Pollers) (calls : List Call) (number : ℕ) → AreCalls (all_but number) s calls → IsPaused number s → NeverGiven number calls }
{}
