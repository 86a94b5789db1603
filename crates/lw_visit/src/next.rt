//! Where a token goes.
ghost use Rattle.std.specs.Prelude.{◌≡◌, ℕ, ◌<◌, ◌≤◌};

/// Where a token goes from a thread.
#[derive(Drop)]
pub enum Next<T> {
    /// To the thread of this number.
    To(u32, T),
    /// Back to its origin: it was at the last thread.
    Complete(T),
}

// Where a token goes that is to reach the thread `to` next, of so many.
pub(crate) fn onward<T>(token: T, to: u32, threads: u32) -> Next<T>
    ensures to { (n : ℕ) (t : T) → result ≡ Next.To n t → (n ≡ to) × (to < threads) × (t ≡ token) }
    ensures complete { (t : T) → result ≡ Next.Complete t → (threads ≤ to) × (t ≡ token) }
{
    if to < threads {
        Next::To(to, token)
    } else {
        Next::Complete(token)
    }
}
