//! Work beside the caller.
use std::thread::{Threads, join};

/// Calls `work` on what is given in a thread of its own, and `f` in this one. It answers what both
/// came to. If no thread can be made, `work` is called after `f`.
///
/// It is generic in what is given, so that the thread is passed a reader without the rule of its
/// shelf.
pub(crate) fn beside<R, S, W, A, F, B>(rt: &R, given: S, work: &W, f: F) -> (A, B)
where
    R: Threads,
    S: Send + Drop,
    W: Fn(S) -> A + Sync,
    A: Send,
    F: FnOnce() -> B,
    requires work { W.pre work.now given }
    requires call { F.pre f }
    ensures { F.post f result.1 }
{
    join(
        rt,
        move || -> A
            requires { W.pre work.now given }
        { work(given) },
        f,
    )
}
