//! A spreadsheet on the engine. It reads lines from standard input, and says of each answer what
//! was computed for it.
#![tactic(auto)]

mod cell;
mod command;
mod desk;
mod formula;
mod sheet;
mod value;

use crate::command::{Command, command_of, without_blanks};
use crate::desk::Desk;
use anyhow::Result;

fn main(rt: HostRuntime) -> Result<()> {
    let alloc = rt.alloc();
    let mut desk = Desk::new(&rt, alloc)?;
    for line in rt.lines(alloc) {
        let line = line?;
        let text = without_blanks(alloc, line.as_bytes())?;
        match command_of(&text) {
            Command::Set(cell, text) => desk.set(&rt, alloc, cell, text)?,
            Command::Get(cell) => desk.get(&rt, cell)?,
            Command::Why(cell) => desk.why(&rt, cell)?,
            Command::Unknown => println!(rt; "not understood: {line}")?,
        }
    }
    Ok(())
}
