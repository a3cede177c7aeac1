//! What the cascade drops.
ghost use Rattle.std.specs.Prelude.{List};
ghost use Rattle.dice_key.specs.Lawful.{IsEquality};
ghost use Rattle.task_share.specs.Asked.{Asked, HasNoCycle, AskersLive, IsDone, Cascade, DropsUnheld};
ghost use Rattle.task_share.specs.Seen.{Share, asked_of};

/// The cascade: called until `None`, `next_unasked` takes out exactly the tasks that have not ended
/// and to which no chain of asks leads from a promise, if the asks of tasks form no cycle and each
/// asking task is in the table and has not ended.
///
/// It does no work: it says what follows from the calls' contracts.
pub fn drops_unheld<K: Eq, T>()
    requires { IsEquality K.eq }
    ensures { (ps : List (K × Share K T)) (ks : List K) (t : Asked K)
        → HasNoCycle (asked_of K.eq ps) → AskersLive (asked_of K.eq ps)
        → Cascade K.eq (asked_of K.eq ps) ks t → IsDone t → DropsUnheld (asked_of K.eq ps) ks t }
{}
