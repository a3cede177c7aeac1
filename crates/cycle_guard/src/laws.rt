//! When the asks of tasks go on to form no cycle.
ghost use Rattle.std.specs.Prelude.{◌≡◌, ◌||◌, ◌&&◌, true};
ghost use Rattle.dice_key.specs.Lawful.{IsEquality};
ghost use Rattle.task_share.specs.Asked.{Asked, By, Tasked, is_by, Leads, HasNoCycle};

/// If the asks of tasks form no cycle, they form none with one more wait for which `would_close`
/// finds no cycle, and none after some were withdrawn.
///
/// It does no work: it says what follows from the calls' contracts.
pub fn no_cycle_stays<K: Eq>()
    requires { IsEquality K.eq }
    ensures more { (s t : Asked K) (from to : K) → HasNoCycle s → (Leads s to from → ⊥)
        → ((q : K) (a : By K)
        → t.asks q a ≡ (s.asks q a || (K.eq to q && is_by K.eq (Tasked from) a))) → HasNoCycle t }
    ensures fewer { (s t : Asked K) → HasNoCycle s
        → ((q : K) (a : By K) → t.asks q a ≡ true → s.asks q a ≡ true) → HasNoCycle t }
{}
