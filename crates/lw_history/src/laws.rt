//! The laws of histories. A law is a function that does nothing: its clause is the law.
ghost use Rattle.std.specs.Prelude.{◌≡◌, ◌<◌, ◌≤◌, ◌+◌, ℕ, true, false, cond, List, [], ◌∷◌, ◌++◌, length, slice_set, Some, None};
ghost use Rattle.std.specs.List.{list_all, list_any, AllByRecursion};
ghost use Rattle.lw_base.specs.Letters.{list_at};
ghost use Rattle.lw_base.specs.declared.moves.Hop.{Hop};
ghost use Rattle.lw_base.specs.declared.message.What.{What};
ghost use Rattle.lw_model.specs.declared.script.Script.{Script};
ghost use Rattle.lw_model.specs.declared.record.RoleKind.{RoleKind};
ghost use Rattle.lw_model.specs.declared.record.RoleKind.TheVariants as role;
ghost use Rattle.lw_model.specs.declared.record.Answer.{Answer};
ghost use Rattle.lw_model.specs.declared.record.Did.{Did};
ghost use Rattle.lw_model.specs.declared.record.Called.{Called};
ghost use Rattle.lw_model.specs.Threads.{image_at, is_client, is_on};
ghost use Rattle.lw_model.specs.Holding.{says, always, is_given, is_closed, is_putself, loses};
ghost use Rattle.lw_model.specs.Devices.{is_began};
ghost use Rattle.lw_model.specs.Sent.{is_origin, must_run, sent_last, to_thread};
ghost use Rattle.lw_whole.specs.Letters.{Letter, Load, Note};
ghost use Rattle.lw_whole.specs.Lines.{dids_in};
ghost use Rattle.lw_whole.specs.Logs.{addressed, all_sends};
ghost use Rattle.lw_whole.specs.Notes.{idle, note_at, both_rows, joined, row_in, rows_in, knows_open};
ghost use Rattle.lw_whole.specs.Tokens.{GoesOn};
ghost use Rattle.lw_whole.specs.Unsent.{named};
ghost use Rattle.lw_history.specs.Histories.{Event, ran, did, called, ended, runs_of, dids_of, past_of, last_of, all_of, log_of};
ghost use Rattle.lw_history.specs.Fitting.{SparesLast, ClientFits, AppFits, EachFits};
ghost use Rattle.lw_history.specs.Made.{AreMade};
ghost use Rattle.lw_history.specs.GoingOn.{is_token, last_before, GoneOn};
ghost use Rattle.lw_history.specs.Keeping.{KeepsRow};
ghost use Rattle.lw_history.specs.Noting.{note_fired, note_after, is_noted, with_note};
ghost use Rattle.lw_history.specs.Holding.{Hold, no_hold, hold_after, hold_closed, hold_put, KeepsHold};
ghost use Rattle.lw_history.specs.Leaving.{ClientDone, AppDone, IsLeft};

/// Nothing is sent and nothing asked for where a thread begins.
pub fn none_are_made()
    ensures { (s : ℕ) (sent : List (List Letter)) → ((t : ℕ) → t < length sent → list_at sent t ≡ []) → AreMade s sent [] [] }
{}

/// The first send that is still to be made is made: it goes out under the number that comes next for its receiver.
pub fn sends_are_made()
    ensures { (s : ℕ) (sent : List (List Letter)) (to : ℕ) (x : Letter) (rest all : List (ℕ × Letter))
        → to < length sent → AreMade s sent ((to, x) ∷ rest) all
        → AreMade s (slice_set sent to (list_at sent to ++ named x s (length (list_at sent to)) ∷ [])) rest all }
{}

/// More sends are asked for, behind those that are still to be made.
pub fn sends_are_asked()
    ensures { (s : ℕ) (sent : List (List Letter)) (unsent all now : List (ℕ × Letter))
        → AreMade s sent unsent all → AreMade s sent (unsent ++ now) (all ++ now) }
{}

/// The first send that is still to be made comes back, and others are asked for in its place.
pub fn sends_are_replaced()
    ensures { (s : ℕ) (sent : List (List Letter)) (p : ℕ × Letter) (rest all now all2 : List (ℕ × Letter)) → (k : AreMade s sent (p ∷ rest) all)
        → all2 ≡ k.made ++ now ++ rest → AreMade s sent (now ++ rest) all2 }
{}

/// Once all sends are made, what was sent to each thread is what the log of the history sends to it, in its order: also where
/// the last messages were asked for before others, since none of those goes to a receiver of the last.
pub fn sends_are_the_logs()
    ensures client { (s : Script) (t : ℕ) (sent : List (List Letter)) (h : List Event) (role : RoleKind) (home : ℕ) (hops : List Hop) (own row : List Note)
        → EachFits (ClientFits s t) h → AreMade t sent [] (all_of h)
        → (u : ℕ) → u < length sent → list_at sent u ≡ to_thread u (all_sends (log_of t role home hops h own row)) }
    ensures app { (s : Script) (sent : List (List Letter)) (h : List Event) (role : RoleKind) (home : ℕ) (hops : List Hop) (own row : List Note)
        → EachFits (AppFits s) h → AreMade 0 sent [] (all_of h)
        → (u : ℕ) → u < length sent → list_at sent u ≡ to_thread u (all_sends (log_of 0 role home hops h own row)) }
{}

/// A token that comes back from a client which has exited, and which doesn't have to run it, is sent on past it: the history with
/// that in the place of the send that came back fits too.
pub fn tokens_go_on()
    ensures client { (s : Script) (t : ℕ) (h : List Event) (made : List (ℕ × Letter)) (to : ℕ) (x : Letter) (rest now : List (ℕ × Letter))
        → EachFits (ClientFits s t) h → all_of h ≡ made ++ (to, x) ∷ rest → is_token x.tag.what ≡ true → must_run s x.tag.what to ≡ false
        → GoesOn s x.tag.what (to + 1) x.load now → SparesLast (last_before (length made) h) now
        → GoneOn (ClientFits s t) h (made ++ now ++ rest) }
    ensures app { (s : Script) (h : List Event) (made : List (ℕ × Letter)) (to : ℕ) (x : Letter) (rest now : List (ℕ × Letter))
        → EachFits (AppFits s) h → all_of h ≡ made ++ (to, x) ∷ rest → is_token x.tag.what ≡ true → must_run s x.tag.what to ≡ false
        → GoesOn s x.tag.what (to + 1) x.load now → SparesLast (last_before (length made) h) now
        → GoneOn (AppFits s) h (made ++ now ++ rest) }
{}

/// Where a thread has sent no last message, there is none to spare.
pub fn none_are_to_be_spared()
    ensures { (last now : List (ℕ × Letter)) → last ≡ [] → SparesLast last now }
{}

/// A token that goes on behind the app spares a client's last message, which went to the app, unless the app were the token's origin.
pub fn tokens_spare_done()
    ensures { (s : Script) (t : ℕ) (h : List Event) (w : What) (from : ℕ) (load : Load) (now : List (ℕ × Letter)) → is_client s t ≡ true
        → EachFits (ClientFits s t) h → GoesOn s w from load now → 1 ≤ from → is_origin w 0 ≡ false → SparesLast (last_of h) now }
{}

/// What spares all last messages spares those before a place.
pub fn all_are_spared()
    ensures { (n : ℕ) (h : List Event) (now : List (ℕ × Letter)) → SparesLast (last_of h) now → SparesLast (last_before n h) now }
{}

/// Where a thread did nothing behind its last messages, each token that it sent stands before them, so all receivers are spared.
pub fn tokens_stand_before_the_last()
    ensures { (s : Script) (t : ℕ) (last : List (ℕ × Letter)) (before : List Event) (made : List (ℕ × Letter)) (to : ℕ) (x : Letter) (rest now : List (ℕ × Letter))
        → addressed last ≡ sent_last s t → last_of before ≡ [] → all_of (ended last ∷ before) ≡ made ++ (to, x) ∷ rest → is_token x.tag.what ≡ true
        → SparesLast (last_before (length made) (ended last ∷ before)) now }
{}

/// A client that has done all its ops and closed leaves the log of a thread that ended.
pub fn clients_leave_logs()
    ensures { (s : Script) (t home : ℕ) (hops : List Hop) (h : List Event) (own : List Note) → ClientDone s t h own
        → IsLeft s t (log_of t role.Client home hops h own []) }
{}

/// The app, once it has unregistered each device and sent its Stops, leaves the log of a thread that ended.
pub fn apps_leave_logs()
    ensures { (s : Script) (home : ℕ) (hops : List Hop) (h : List Event) (own joint : List Note) → AppDone s h own joint
        → IsLeft s 0 (log_of 0 role.App home hops h own joint) }
{}

/// How what a row keeps grows with its thread's history: a new row keeps what an empty one says; a run and the last messages leave
/// it, and so does a line that says nothing of a channel's making or of a shut device; another line changes the note of its
/// device, and a callback that of its own.
pub fn rows_keep_up()
    ensures begin { (s : Script) (t : ℕ) (own : List Note) → length own ≡ length s.images → AllByRecursion (λ n. n ≡ idle) own → KeepsRow s t [] own }
    ensures ran { (s : Script) (t : ℕ) (h : List Event) (own : List Note) (x : Letter) (now : List (ℕ × Letter)) → KeepsRow s t h own → KeepsRow s t (ran x now ∷ h) own }
    ensures ended { (s : Script) (t : ℕ) (h : List Event) (own : List Note) (now : List (ℕ × Letter)) → KeepsRow s t h own → KeepsRow s t (ended now ∷ h) own }
    ensures unnoted { (s : Script) (t : ℕ) (h : List Event) (own : List Note) (x : Did) (now : List (ℕ × Letter)) → is_noted x.answer ≡ false
        → KeepsRow s t h own → KeepsRow s t (did x now ∷ h) own }
    ensures listed { (s : Script) (t : ℕ) (h : List Event) (own : List Note) (x : Did) (now : List (ℕ × Letter)) (d : ℕ) → image_at s t x.op ≡ Some d
        → (is_began x.answer ≡ true → (note_at own d).begun ≡ 0)
        → KeepsRow s t h own → KeepsRow s t (did x now ∷ h) (with_note own d (note_after t x.answer)) }
    ensures called { (s : Script) (t : ℕ) (h : List Event) (own : List Note) (x : Called)
        → KeepsRow s t h own → KeepsRow s t (called x ∷ h) (with_note own x.device note_fired) }
{}

/// What the app's row is that takes in others: a message that brings a row joins it, and no other message does; a device that the
/// joint row knows open each of them knows open; and what a line or a callback changes in the own row it changes in the joint one.
pub fn rows_are_taken_in()
    ensures taken { (own : List Note) (h : List Event) (x : Letter) (now : List (ℕ × Letter)) (ns : List Note) → row_in x ≡ Some ns
        → joined own (rows_in (runs_of (ran x now ∷ h))) ≡ both_rows (joined own (rows_in (runs_of h))) ns }
    ensures untaken { (own : List Note) (h : List Event) (x : Letter) (now : List (ℕ × Letter)) → row_in x ≡ None
        → joined own (rows_in (runs_of (ran x now ∷ h))) ≡ joined own (rows_in (runs_of h)) }
    ensures knew { (own : List Note) (rows : List (List Note)) (d : ℕ) → d < length own → knows_open (note_at (joined own rows) d) ≡ true
        → (knows_open (note_at own d) ≡ true) × (list_all (λ ns. knows_open (note_at ns d)) rows ≡ true) }
    ensures listed { (own : List Note) (rows : List (List Note)) (t d : ℕ) (a : Answer) → is_given a ≡ false
        → (is_began a ≡ true → list_all (λ ns. knows_open (note_at ns d)) rows ≡ true)
        → joined (with_note own d (note_after t a)) rows ≡ with_note (joined own rows) d (note_after t a) }
    ensures called { (own : List Note) (rows : List (List Note)) (d : ℕ) → joined (with_note own d note_fired) rows ≡ with_note (joined own rows) d note_fired }
{}

/// How what a client holds of a device grows with its history. A line of the device changes it as its answer says, where the client
/// hasn't closed and gives back no reference that it hasn't; a line of no device, or of another, leaves it.
pub fn holds_keep_up()
    ensures begin { (s : Script) (t d : ℕ) → KeepsHold s t d [] no_hold }
    ensures ran { (s : Script) (t d : ℕ) (h : List Event) (k : Hold) (x : Letter) (now : List (ℕ × Letter)) → KeepsHold s t d h k
        → KeepsHold s t d (ran x now ∷ h) (cond (is_putself d x.tag.what) (hold_put k) k) }
    ensures called { (s : Script) (t d : ℕ) (h : List Event) (k : Hold) (x : Called) → KeepsHold s t d h k → KeepsHold s t d (called x ∷ h) k }
    ensures ended { (s : Script) (t d : ℕ) (h : List Event) (k : Hold) (now : List (ℕ × Letter)) → KeepsHold s t d h k → KeepsHold s t d (ended now ∷ h) k }
    ensures elsewhere { (s : Script) (t d : ℕ) (h : List Event) (k : Hold) (x : Did) (now : List (ℕ × Letter)) → is_on s t d x.op ≡ false
        → is_closed x.answer ≡ false → KeepsHold s t d h k → KeepsHold s t d (did x now ∷ h) k }
    ensures listed { (s : Script) (t d : ℕ) (h : List Event) (k : Hold) (x : Did) (now : List (ℕ × Letter)) → is_on s t d x.op ≡ true
        → is_closed x.answer ≡ false → list_any (says always is_closed) (past_of h) ≡ false → (loses x.answer ≡ true → 1 ≤ k.references)
        → KeepsHold s t d h k → KeepsHold s t d (did x now ∷ h) (hold_after x.answer k) }
    ensures closed { (s : Script) (t d : ℕ) (h : List Event) (k : Hold) (x : Did) (now : List (ℕ × Letter)) → is_closed x.answer ≡ true
        → KeepsHold s t d h k → KeepsHold s t d (did x now ∷ h) (hold_closed k) }
{}

/// The lines among the steps of a history are its lines.
pub fn lines_are_counted()
    ensures { (h : List Event) → dids_in (past_of h) ≡ length (dids_of h) }
{}
