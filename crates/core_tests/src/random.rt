//! A list of calls on the core that is drawn by lot, with a look at all that is asked for after
//! each of them.
use dice_core::{CommitRefusal, Core, Job, Polled, Step};
use dice_key::{KeyRef, NoMemory, ValueRef};
use std::alloc::Global;
use std::mem;
use std::sync::Arc;
use std::test::Fail;
use tiny_universe::{Place, Tiny, Value};

/// How many calls are drawn, and by which lot. `bench/random.sh` draws more of them.
const CALLS: u32 = 400;

const LOT: u64 = 1;

/// How many cells there are.
const CELLS: usize = 4;

/// What there may be of each at once.
const MOST_OPEN: usize = 4;

const MOST_ASKED: usize = 12;

const MOST_OUT: usize = 5;

/// Numbers that are drawn by lot.
#[derive(Drop)]
struct Lot {
    state: u64,
}

impl Lot {
    /// A number below this one, or 0.
    fn draw(&mut self, below: usize) -> usize {
        self.state = self
            .state
            .wrapping_mul(6_364_136_223_846_793_005)
            .wrapping_add(1_442_695_040_888_963_407);
        if below == 0 {
            return 0;
        }
        (self.state >> 33) as usize % below
    }

    fn cell(&mut self) -> u32 {
        (self.draw(CELLS) % CELLS) as u32
    }

    fn place(&mut self) -> Place {
        match self.draw(8) {
            0 => Place::Cell(self.cell()),
            1 => Place::Follow(self.cell()),
            2 => Place::Parity(self.cell()),
            3 => Place::Clock,
            4 => Place::Ring(true),
            5 => Place::Ring(false),
            _ => {
                let first = self.cell();
                Place::Sum(first, self.cell())
            }
        }
    }
}

/// An ask: its index, its version and its key.
#[derive(Drop)]
struct Asked {
    ask: u64,
    version: u64,
    key: KeyRef<Tiny>,
}

/// A core, the numbers in the cells at each version, and what calls gave that others take.
struct Course {
    alloc: Global,
    universe: Arc<Tiny>,
    core: Core<Tiny>,
    history: Vec<[u64; CELLS]>,
    open: Vec<(u64, u64)>,
    asked: Vec<Asked>,
    jobs: Vec<Job<Tiny>>,
    steps: Vec<Step<Tiny>>,
}

// (One function for all places that drop one: a derived drop is written out at each.)
impl Drop for Course {
    fn drop(self) {
        let Course {
            alloc: _,
            universe: _universe,
            core: _core,
            history: _history,
            open: _open,
            asked: _asked,
            jobs: _jobs,
            steps: _steps,
        } = self;
    }
}

/// The number in a cell at a version; 0 in those that are never set.
fn number_in(history: &[[u64; CELLS]], version: u64, cell: u64) -> u64 {
    let Some(numbers) = history.get(version as usize) else {
        return 0;
    };
    match numbers.get((cell % (1 << 32)) as usize) {
        Some(number) => *number,
        None => 0,
    }
}

/// The value of a key at a version, from nothing; `None` if it reaches a cycle.
fn value_of(history: &[[u64; CELLS]], version: u64, place: Place) -> Option<Value> {
    let number = |cell: u64| -> u64 { number_in(history, version, cell) };
    match place {
        Place::Cell(cell) => Some(Value::Number(number(cell as u64))),
        Place::Follow(cell) => Some(Value::Number(number(number(cell as u64)))),
        Place::Parity(cell) => Some(Value::Number(number(number(cell as u64)) % 2)),
        Place::Sum(a, b) => Some(Value::Number(number(a as u64).wrapping_add(number(b as u64)))),
        Place::Clock => Some(Value::Reading(version)),
        Place::Ring(_) => None,
    }
}

/// Takes out the item with this number, if there is one.
fn take_from<T: Drop>(items: &mut Vec<T>, at: usize) -> Option<T> {
    if at < items.len() {
        return Some(items.swap_remove(at));
    }
    None
}

impl Course {
    fn new(alloc: Global) -> Result<Course, NoMemory> {
        let universe = Arc::new(alloc, Tiny::new(alloc)?)?;
        let core = Core::new(alloc, Arc::try_clone(&universe)?)?;
        let mut history = Vec::new(alloc);
        history.push([0; CELLS])?;
        Ok(Course {
            alloc,
            universe,
            core,
            history,
            open: Vec::new(alloc),
            asked: Vec::new(alloc),
            jobs: Vec::new(alloc),
            steps: Vec::new(alloc),
        })
    }

    /// Sets a cell; a new version has its number.
    fn commit(&mut self, lot: &mut Lot) -> Result<(), NoMemory> {
        let cell = lot.cell();
        let number = lot.draw(5) as u64;
        let key: KeyRef<Tiny> = Arc::new(self.alloc, Place::Cell(cell))?;
        let value: ValueRef<Tiny> = Arc::new(self.alloc, Value::Number(number))?;
        match self.core.commit(0, &[(key, value)]) {
            Ok(version) => self.note(version, cell as usize, number),
            Err(CommitRefusal::NoMemory) => Err(NoMemory),
            Err(_) => Ok(()),
        }
    }

    /// Notes what a cell has at a version, if this is a new one.
    fn note(&mut self, version: u64, cell: usize, number: u64) -> Result<(), NoMemory> {
        if version != self.history.len() as u64 {
            return Ok(());
        }
        let mut numbers = match self.history.last() {
            Some(numbers) => *numbers,
            None => [0; CELLS],
        };
        if let Some(place) = numbers.get_mut(cell) {
            *place = number;
        }
        self.history.push(numbers)?;
        Ok(())
    }

    fn open(&mut self) -> Result<(), NoMemory> {
        if self.open.len() < MOST_OPEN {
            let version = self.core.newest();
            let tx = self.core.open(0)?;
            self.open.push((tx, version))?;
        }
        Ok(())
    }

    fn close(&mut self, lot: &mut Lot) -> Result<(), NoMemory> {
        let at = lot.draw(self.open.len());
        if let Some((tx, _)) = take_from(&mut self.open, at)
            && self.core.is_open(tx)
        {
            self.core.close(tx);
        }
        self.forget()
    }

    /// Forgets the asks that do not stand any more.
    fn forget(&mut self) -> Result<(), NoMemory> {
        let asked = mem::replace(&mut self.asked, Vec::new(self.alloc));
        for asked in asked {
            if self.core.stands(asked.ask) {
                self.asked.push(asked)?;
            }
        }
        Ok(())
    }

    fn ask(&mut self, lot: &mut Lot) -> Result<(), NoMemory> {
        let at = lot.draw(self.open.len());
        let Some(&(tx, version)) = self.open.get(at) else {
            return Ok(());
        };
        if self.asked.len() >= MOST_ASKED || !self.core.is_open(tx) {
            return Ok(());
        }
        let key = Arc::new(self.alloc, lot.place())?;
        let ask = self.core.ask(0, tx, Arc::try_clone(&key)?)?;
        self.asked.push(Asked { ask, version, key })?;
        Ok(())
    }

    fn leave(&mut self, lot: &mut Lot) {
        let at = lot.draw(self.asked.len());
        if let Some(asked) = take_from(&mut self.asked, at)
            && self.core.stands(asked.ask)
        {
            self.core.leave(asked.ask);
        }
    }

    fn take(&mut self) -> Result<(), NoMemory> {
        if self.jobs.len().saturating_add(self.steps.len()) < MOST_OUT
            && let Some(job) = self.core.take_job()
        {
            self.jobs.push(job)?;
        }
        Ok(())
    }

    fn advance(&mut self, lot: &mut Lot) -> Result<(), NoMemory> {
        let at = lot.draw(self.jobs.len());
        let Some(job) = take_from(&mut self.jobs, at) else {
            return Ok(());
        };
        let Ok(step) = job.advance(&*self.universe) else {
            return Err(NoMemory);
        };
        self.steps.push(step)?;
        Ok(())
    }

    /// Gives a step, which may be one of long ago.
    fn give(&mut self, lot: &mut Lot) -> Result<(), NoMemory> {
        let at = lot.draw(self.steps.len());
        let Some(step) = take_from(&mut self.steps, at) else {
            return Ok(());
        };
        match self.core.give(step) {
            Ok(_) => Ok(()),
            Err(_) => Err(NoMemory),
        }
    }

    /// Gives up a job, which is kept: what comes of it later is stale.
    fn fail(&mut self, lot: &mut Lot) {
        let at = lot.draw(self.jobs.len());
        if let Some(job) = self.jobs.get(at) {
            self.core.fail(job.name());
        }
    }

    fn back(&mut self, lot: &mut Lot) {
        let at = lot.draw(self.jobs.len());
        if let Some(job) = take_from(&mut self.jobs, at) {
            let _ = self.core.back(job);
        }
    }

    /// Makes a call that is drawn by lot.
    fn call(&mut self, lot: &mut Lot) -> Result<(), NoMemory> {
        match lot.draw(16) {
            0 => self.commit(lot)?,
            1 => self.open()?,
            2 if lot.draw(3) == 0 => self.close(lot)?,
            3 | 4 => self.ask(lot)?,
            5 if lot.draw(2) == 0 => self.leave(lot),
            6 if lot.draw(6) == 0 => self.fail(lot),
            7 if lot.draw(2) == 0 => self.back(lot),
            8 | 9 => self.advance(lot)?,
            10 | 11 => self.give(lot)?,
            _ => self.take()?,
        }
        Ok(())
    }

    /// Whether an ask is answered by what its key has come to from nothing, or may wait for it.
    fn is_answered(&self, asked: &Asked) -> bool {
        let value = value_of(&self.history, asked.version, *asked.key);
        match self.core.poll(asked.version, &asked.key) {
            Polled::Value(found) => value == Some(**found),
            Polled::Cycle(path) => value.is_none() && path.keys().len() == 2,
            Polled::Lost => true,
            Polled::Pending => self.core.ready() > 0 || self.core.out() > 0,
            Polled::Absent => false,
        }
    }

    /// Whether each ask is.
    fn are_answered(&self) -> bool {
        for asked in &self.asked {
            if !self.is_answered(asked) {
                return false;
            }
        }
        true
    }
}

/// The number of the first call after which an ask is answered wrongly, of so many that are drawn.
fn first_wrong(alloc: Global, calls: u32, state: u64) -> Result<Option<u32>, NoMemory> {
    let mut lot = Lot { state };
    let mut course = Course::new(alloc)?;
    for number in 0..calls {
        course.call(&mut lot)?;
        if !course.are_answered() {
            return Ok(Some(number));
        }
    }
    Ok(None)
}

#[test]
fn calls_that_are_drawn_by_lot(rt: HostRuntime) -> Result<(), Fail> {
    assert!(rt; first_wrong(rt.alloc(), CALLS, LOT)? == None);
    Ok(())
}
