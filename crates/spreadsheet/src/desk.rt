//! What the program does for each line.
use crate::cell::{Cell, Key};
use crate::sheet::Sheet;
use crate::value::Value;
use anyhow::Result;
use dice_session::{Cause, Event, Found, Session};
use pure_universe::Plain;
use shared_text::Text;
use std::alloc::Global;
use std::io::Print;
use std::sync::Wait;

/// A session, and the point in its journal before the last change.
#[derive(Drop)]
pub(crate) struct Desk {
    session: Session<Plain<Sheet>>,
    changed_at: usize,
}

impl Desk {
    /// A sheet of empty cells.
    pub(crate) fn new<R: Wait>(rt: &R, alloc: Global) -> Result<Desk> {
        let session = Session::new(rt, alloc, Plain::new(alloc, Sheet)?)?;
        Ok(Desk {
            session,
            changed_at: 0,
        })
    }

    /// Gives a cell this text.
    pub(crate) fn set<R: Wait>(
        &mut self,
        rt: &R,
        alloc: Global,
        cell: Cell,
        text: &[u8],
    ) -> Result<()> {
        self.changed_at = self.session.point(rt);
        let text = Text::from_slice(alloc, text)?;
        self.session.set(Key::Text(cell), Value::Text(text))?;
        self.session.commit(rt)?;
        Ok(())
    }

    /// Prints what the cell comes to, and which cells were computed for this and which kept.
    pub(crate) fn get<R: Wait + Print>(&mut self, rt: &R, cell: Cell) -> Result<()> {
        let point = self.session.point(rt);
        match self.session.compute(rt, Key::Value(cell))? {
            Found::Value(value) => match &*value {
                Value::Number(Ok(number)) => print!(rt; "{cell} = {number}")?,
                Value::Number(Err(fault)) => print!(rt; "{cell} has no number: {fault}")?,
                Value::Text(_) => print!(rt; "{cell} is a text")?,
            },
            Found::Cycle(path) => {
                print!(rt; "{cell} needs a cycle:")?;
                for key in path.keys() {
                    print!(rt; " {key}", key = &**key)?;
                }
            }
        }
        for event in &self.session.events_since(rt, point)? {
            match event {
                Event::Start(_, key, _) => print!(rt; "; computed {key}", key = &**key)?,
                Event::Keep(_, key, _) => print!(rt; "; kept {key}", key = &**key)?,
                _ => {}
            }
        }
        println!(rt; "")?;
        Ok(())
    }

    /// Prints what was done for the cell's value since the last change, and why.
    pub(crate) fn why<R: Wait + Print>(&mut self, rt: &R, cell: Cell) -> Result<()> {
        let key = Key::Value(cell);
        let mut told = false;
        for event in &self.session.events_since(rt, self.changed_at)? {
            match event {
                Event::Start(_, started, cause) if **started == key => {
                    tell(rt, cell, cause)?;
                    told = true;
                }
                Event::Keep(_, kept, version) if **kept == key => {
                    println!(rt;
                        "{cell} was kept from version {version}: what it needs is as before"
                    )?;
                    told = true;
                }
                Event::Cyclic(_, reaching) if **reaching == key => {
                    println!(rt; "{cell} needs a cycle")?;
                    told = true;
                }
                _ => {}
            }
        }
        if !told {
            println!(rt; "{cell} was not looked at since the last change")?;
        }
        Ok(())
    }
}

/// Prints why a cell's value was computed.
fn tell<R: Print>(rt: &R, cell: Cell, cause: &Cause<Key>) -> Result<()> {
    match cause {
        Cause::New => println!(rt; "{cell} was computed: it is new")?,
        Cause::Differs(version, key) => {
            println!(rt;
                "{cell} was computed again: {key} differs from version {version}",
                key = &**key
            )?
        }
        Cause::Transient(version) => {
            println!(rt; "{cell} was computed again: its value was for version {version} alone")?
        }
    }
    Ok(())
}
