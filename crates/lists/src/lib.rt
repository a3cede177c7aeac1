//! What holds of lists, whatever they are lists of: what stands in them, and that nothing stands
//! twice.
#![tactic(auto)]
