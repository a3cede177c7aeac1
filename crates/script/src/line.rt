//! What a line of a script does.

use crate::name::Name;
use buck_label::{Label, Path, Text};

/// A line that does something.
#[derive(Drop)]
pub enum Line {
    /// The path has these bytes in the next commit.
    Put(Path, Text),
    /// The path has no file in the next commit.
    Drop(Path),
    /// What was put and dropped since the last commit is applied, if anything.
    Commit,
    /// A transaction of this name is opened at the newest version.
    Open(Name),
    /// A target's digest is requested.
    Ask(Request),
    /// The text of a target's action is requested.
    Action(Request),
    /// The request is waited for; of one that was waited for before, nothing.
    Wait(Name),
    /// The request is given up.
    Cancel(Name),
    /// The transaction is closed, and its requests that were not waited for are given up.
    Close(Name),
}

/// A request.
#[derive(Drop)]
pub struct Request {
    /// The transaction that it is made in.
    pub transaction: Name,
    /// Its own name.
    pub name: Name,
    /// The target.
    pub label: Label,
}
