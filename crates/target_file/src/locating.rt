//! From calls to targets.
ghost use Rattle.std.specs.Prelude.{◌≡◌, ◌++◌, ◌∷◌, [], map, IfOk, OnOk};
ghost use Rattle.std.specs.List.{AllByRecursion};
ghost use Rattle.target_file.specs.Files.{IsFine};
ghost use Rattle.target_file.specs.Seen.{call_of};
ghost use Rattle.target_file.specs.Targets.{located};
ghost use Rattle.target_file.specs.Lent.{located_of, all_of};

use crate::call::Call;
use crate::fault::NoMemory;
use crate::file::Located;
use crate::target::Target;
use std::alloc::Global;
use std::sync::Arc;

/// The target of a call.
fn locate(alloc: Global, call: Call) -> Result<Located, NoMemory>
    requires { IsFine (call_of call) }
    ensures { IfOk result (λ l. located_of l ≡ located (call_of call)) }
{
    let line = call.line;
    let target = Arc::new(alloc, Target::of(alloc, &call)?)?;
    Ok(Located { line, target })
}

/// Adds the target of a call.
fn add_located(alloc: Global, targets: &mut Vec<Located>, call: Call) -> Result<(), NoMemory>
    requires { IsFine (call_of call) }
    ensures { OnOk result
        (all_of targets.new.items ≡ all_of targets.old.items ++ located (call_of call) ∷ []) }
{
    targets.push(locate(alloc, call)?)?;
    Ok(())
}

/// The targets of the calls, in order.
pub fn located_all(alloc: Global, calls: Vec<Call>) -> Result<Vec<Located>, NoMemory>
    requires { AllByRecursion IsFine (map call_of calls.items) }
    ensures { IfOk result (λ ls. all_of ls.items ≡ map located (map call_of calls.items)) }
{
    let mut targets = Vec::with_capacity(alloc, calls.len())?;
    for call in calls {
        add_located(alloc, &mut targets, call)?;
    }
    Ok(targets)
}
