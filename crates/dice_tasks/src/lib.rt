//! The tasks of one version of an engine: each is made, waits, goes on and ends; and the desk,
//! where it is told and counted.
#![tactic(auto)]

mod anew;
mod desk;
mod end;
mod line;
mod making;
mod owners;
mod shelf;
mod task;
mod value;
mod wait;

pub use anew::differ;
pub use desk::Desk;
pub use end::{How, cascade, end_all, end_value};
pub use making::{Making, make, prepare};
pub use owners::Owners;
pub use shelf::ReadyTask;
pub use task::{Next, Task};
pub use value::{finish, looked};
pub use wait::{go_on, park, put_back, take};

/// The tasks of one version.
pub type Tasks<U> = task_share::Table<<U as dice_key::Universe>::Key, crate::task::Task<U>>;
