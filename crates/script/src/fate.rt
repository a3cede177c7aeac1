//! What becomes of a request.
ghost use Rattle.std.specs.Prelude.{◌≡◌};
ghost use Rattle.script.specs.Past.{given_up};

/// What has become of a request.
#[derive(Clone, Copy)]
pub(crate) enum Fate {
    /// Nobody has waited for it, and it was not given up.
    Pending,
    /// It was waited for.
    Answered,
    /// It was given up: by `cancel`, or when its transaction was closed before a `wait`.
    Cancelled,
}

impl Fate {
    /// What becomes of it when its transaction is closed.
    pub(crate) fn given_up(self) -> Fate
        ensures { result ≡ given_up self }
    {
        match self {
            Fate::Pending | Fate::Cancelled => Fate::Cancelled,
            Fate::Answered => Fate::Answered,
        }
    }
}
