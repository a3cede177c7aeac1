//! What a state tells of itself.
ghost use Rattle.std.specs.Prelude.{◌≡◌, ◌≤◌, ◌++◌, ℕ, List, Option};

/// A state that stands for a list of events, to which each turn may add at the end.
pub trait Tale {
    /// An event as plain data. It serves contracts alone: no value of it is made.
    type Event;

    // The events so far, in order.
    ghost list: { Self → List Self.Event };

    // The number of the seat that an event tells, if any.
    ghost by: { Self.Event → Option ℕ };

    // The numbers of `tally`.
    ghost counts: { Self → ℕ × ℕ × ℕ };

    // Two numbers of the state that no turn changes.
    ghost mark: { Self → ℕ × ℕ };

    // The version of a list of events.
    ghost version: { List Self.Event → ℕ };

    /// Three numbers, which a seat keeps of the state as it gave it back.
    fn tally(&self) -> (u64, u64, u64)
        ensures { result ≡ counts self.now };

    /// The version of the state's list.
    fn list_version(&self) -> u64
        ensures { result ≡ version (list self.now) };

    // No event lowers the version.
    ghost rises: { (xs ys : List Self.Event) → version xs ≤ version (xs ++ ys) };
}
