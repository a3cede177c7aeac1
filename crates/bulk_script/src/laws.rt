//! What holds of the script, as contracts. None of these functions does any work.
ghost use Rattle.std.specs.Prelude.{◌≡◌, ◌≤◌, ℕ, length};
ghost use Rattle.script.specs.Scripts.{IsScript};
ghost use Rattle.script.specs.Plan.{plan_of};
ghost use Rattle.bulk_script.specs.Bulk.{bulk, bulk_lines, requests};

/// The text is a script, and has these lines: for up to 10,000 targets.
pub fn bulk_is_script()
    ensures { (n : ℕ) → 1 ≤ n → n ≤ 10000 → IsScript (bulk n) (bulk_lines n) }
{}

/// What these lines ask for is so many requests.
pub fn requests_are_counted()
    ensures { (n : ℕ) → length (plan_of (bulk_lines n)).requests ≡ requests n }
{}
