//! A reader in a thread of its own. It prints sums as soon as they are finished, while a builder
//! commits numbers and waits for their sums. With the words `looks READERS` it is a benchmark.
#![tactic(auto)]

mod beside;
mod build;
mod looks;
mod watch;

use anyhow::Result;
use std::env::{self, Args};

fn main(rt: HostRuntime) -> Result<()> {
    let alloc = rt.alloc();
    match readers_of(env::args(&rt)?) {
        Some(readers) => looks::measure(&rt, alloc, readers),
        None => watch::watch_builder(&rt, alloc),
    }
}

/// The number of readers in the words `looks READERS` after the program's name.
fn readers_of(mut words: Args) -> Option<u32> {
    words.next()?;
    if words.next()?.as_str() != "looks" {
        return None;
    }
    words.next()?.parse().ok()
}
