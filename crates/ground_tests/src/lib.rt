//! Tests of the crates that stand lowest: seeds, small sets and maps, keys, the example universe,
//! evaluation, versions, cells and recordings, through public calls.
#![tactic(auto)]

#[cfg(test)]
mod batches;
#[cfg(test)]
mod cells;
#[cfg(test)]
mod common;
#[cfg(test)]
mod epochs;
#[cfg(test)]
mod evaluation;
#[cfg(test)]
mod number_sets;
#[cfg(test)]
mod ranges;
#[cfg(test)]
mod recordings;
#[cfg(test)]
mod seeds;
#[cfg(test)]
mod small_maps;
#[cfg(test)]
mod small_sets;
#[cfg(test)]
mod tiny;
