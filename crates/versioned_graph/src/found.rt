//! What a look-up answers.
use dep_recorder::Trace;
use dice_key::Universe;
use std::sync::Arc;

/// Why a key has to be computed.
#[derive(Clone, Copy, Debug, PartialEq, Eq)]
pub enum Why {
    /// It was never finished.
    New,
    /// What was finished is transient; it was last finished or seen at this version.
    Transient(u64),
}

/// What a look-up answers. The version beside an entry's value is the greatest at which it was
/// finished or seen.
#[derive(Drop)]
pub enum Found<'a, U: Universe> {
    /// The value at the version asked for.
    Match(&'a Arc<U::Value>, u64),
    /// The key has to be computed.
    Compute(Why),
    /// The value is that at the version asked for, if the answers in the trace are.
    CheckDeps(&'a Arc<U::Value>, &'a Arc<Trace<U>>, u64),
}
