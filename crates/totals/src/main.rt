//! Running totals on the engine: a change has only those totals computed again that it can reach.
#![tactic(auto)]

mod universe;

use crate::universe::{Key, Totals};
use anyhow::Result;
use dice_session::{Found, Session};
use pure_universe::Plain;

fn main(rt: HostRuntime) -> Result<()> {
    let alloc = rt.alloc();
    let mut session = Session::new(&rt, alloc, Plain::new(alloc, Totals)?)?;
    for (cell, number) in [(0, 1), (2, 5), (1, 7)] {
        session.set(Key::Cell(cell), number)?;
        let version = session.commit(&rt)?;
        match session.compute(&rt, Key::Total(3))? {
            Found::Value(total) => println!(rt; "version {version}: total 3 is {total}")?,
            Found::Cycle(_) => println!(rt; "version {version}: total 3 needs itself")?,
        }
    }
    for line in &session.log(&rt)? {
        let text = String::from_utf8_lossy(alloc, line.as_bytes())?;
        println!(rt; "{text}")?;
    }
    Ok(())
}
