//! What holds of the tasks of an engine, and what each step keeps of it.
#![tactic(auto)]
