//! A task's way through its states.
use std::sync::Arc;
use std::test::Fail;
use task_state::{Need, Outcome, Stage, TaskState};

#[test]
fn a_check_that_becomes_a_computation(rt: HostRuntime) -> Result<(), Fail> {
    let mut state: TaskState<u32, u64> = TaskState::Checking(Stage::Ready);
    assert!(rt; state.poll_step() == Need::Take);
    state.taken();
    assert!(rt; state.poll_step() == Need::Return);
    state.given(false);
    assert!(rt; state.poll_step() == Need::Answers);
    state.answered();
    state.taken();
    state.back();
    state.taken();
    state.given(true);
    assert!(rt; state.poll_step() == Need::Take);
    state.taken();
    state.differs();
    assert!(rt; matches!(state, TaskState::Computing(Stage::Ready)));
    state.end(Outcome::Value(Arc::new(rt.alloc(), 7)?));
    assert!(rt; state.poll_step() == Need::Nothing && value_of(&state) == Some(7));
    Ok(())
}

/// The value that it ended with.
fn value_of(state: &TaskState<u32, u64>) -> Option<u64> {
    match state {
        TaskState::Ended(Outcome::Value(value)) => Some(**value),
        _ => None,
    }
}

#[test]
fn a_check_that_finds_all_the_same_ends_with_its_value(rt: HostRuntime) -> Result<(), Fail> {
    let mut state: TaskState<u32, u64> = TaskState::Checking(Stage::Ready);
    state.taken();
    state.same(Arc::new(rt.alloc(), 7)?);
    assert!(rt; value_of(&state) == Some(7));
    Ok(())
}
