//! Tables of tasks whose keys are numbers.
use dice_key::{NoMemory, Seed};
use std::alloc::Global;
use std::sync::Arc;
use std::test::Fail;
use task_share::{Asker, Table, Wait};

/// Makes a task of the key if it has none that runs; whether it did.
fn make(table: &mut Table<u32, u64>, key: &Arc<u32>, task: u64) -> Result<bool, NoMemory> {
    if table.is_live(key) {
        return Ok(false);
    }
    table.make(key, task)?;
    Ok(true)
}

/// The tasks 10 of key 1 and 20 of key 2; 1 asks for 2, and promises 8 and 9 for 1.
fn shared(alloc: Global, one: &Arc<u32>, two: &Arc<u32>) -> Result<Table<u32, u64>, NoMemory> {
    let mut table = Table::new(alloc, Seed::fixed());
    make(&mut table, one, 10)?;
    make(&mut table, two, 20)?;
    table.join(two, Asker::Task(Arc::try_clone(one)?))?;
    table.join(one, Asker::Promise(8))?;
    table.join(one, Asker::Promise(9))?;
    Ok(table)
}

/// A table with its two keys.
#[derive(Drop)]
struct Tasks {
    one: Arc<u32>,
    two: Arc<u32>,
    table: Table<u32, u64>,
}

/// What `shared` makes.
fn shared_tasks(alloc: Global) -> Result<Tasks, NoMemory> {
    let one = Arc::new(alloc, 1)?;
    let two = Arc::new(alloc, 2)?;
    let table = shared(alloc, &one, &two)?;
    Ok(Tasks { one, two, table })
}

impl Tasks {
    /// The next task that is dropped, with its key.
    fn next(&mut self) -> Option<(u32, u64)> {
        match self.table.next_unasked() {
            Some((key, task)) => Some((*key, task)),
            None => None,
        }
    }

    /// The next task that is dropped once a promise has left key 1.
    fn next_without(&mut self, promise: u64) -> Option<(u32, u64)> {
        let asker = Asker::Promise(promise);
        self.table.leave(&self.one, &asker);
        self.next()
    }

    /// Whether the task of key 1 is this one.
    fn has(&self, task: u64) -> bool {
        self.table.task(&self.one) == Some(&task)
    }

    /// Notes that the task of key 1 has ended; whether it is still there, and neither runs nor
    /// waits.
    fn end(&mut self) -> bool {
        self.table.ended(&self.one);
        self.has(10) && !self.table.is_live(&self.one) && !self.runs() && self.waits() == 0
    }

    /// Whether the task of key 1, found by its number, has not ended.
    fn runs(&self) -> bool {
        match self.table.number(&self.one) {
            Some(number) => self.table.is_live_numbered(number),
            None => false,
        }
    }

    /// How many keys key 1 waits for.
    fn waits(&self) -> usize {
        match self.table.number(&self.one) {
            Some(number) => self.table.waits_numbered(number).len(),
            None => 0,
        }
    }

    /// Changes the task of key 1, found by its number, and gives it as it is then.
    fn change(&mut self, other: u64) -> Option<u64> {
        let number = self.table.number(&self.one)?;
        let task = self.table.task_mut_numbered(number)?;
        *task = other;
        self.table.task_numbered(number).copied()
    }

    /// Makes a task of key 1 and changes it to another; whether it was made.
    fn make_anew(&mut self, task: u64, other: u64) -> Result<bool, NoMemory> {
        let made = make(&mut self.table, &self.one, task)?;
        if let Some(task) = self.table.task_mut(&self.one) {
            *task = other;
        }
        Ok(made)
    }

    /// Puts a task that has ended to key 1, unless it has one that runs; whether it did.
    fn put_ended(&mut self, task: u64) -> Result<bool, NoMemory> {
        self.table.reserve(&self.one)?;
        if self.table.is_live(&self.one) {
            return Ok(false);
        }
        self.table.make_ended(&self.one, task);
        Ok(true)
    }

    /// Whether just these promises ask for key 1.
    fn is_asked_by(&self, promises: &[u64]) -> bool {
        self.table.askers(&self.one).promises == promises
    }

    /// How many tasks ask for key 2, and how many keys key 1 waits for.
    fn counts(&self) -> (usize, usize) {
        let askers = self.table.askers(&self.two).tasks.len();
        (askers, self.waits())
    }

    /// Takes a task away that asks for key 2.
    fn take_asker(&mut self) -> Option<u32> {
        match self.table.take_asker(&self.two) {
            Some(key) => Some(*key),
            None => None,
        }
    }
}

#[test]
fn a_shared_task_stays_until_its_last_asker_leaves(rt: HostRuntime) -> Result<(), Fail> {
    let mut tasks = shared_tasks(rt.alloc())?;
    assert!(rt; tasks.next_without(8) == None);
    assert!(rt; tasks.next_without(9) == Some((1, 10)));
    assert!(rt; tasks.next() == Some((2, 20)) && tasks.next() == None);
    Ok(())
}

#[test]
fn a_task_made_anew_keeps_its_askers(rt: HostRuntime) -> Result<(), Fail> {
    let mut tasks = shared_tasks(rt.alloc())?;
    assert!(rt; tasks.end());
    assert!(rt; tasks.make_anew(30, 31)? && tasks.change(32) == Some(32));
    assert!(rt; tasks.has(32) && tasks.is_asked_by(&[8, 9]));
    assert!(rt; tasks.next() == Some((2, 20)) && tasks.next() == None);
    Ok(())
}

#[test]
fn a_task_that_was_put_ended_keeps_its_askers(rt: HostRuntime) -> Result<(), Fail> {
    let mut tasks = shared_tasks(rt.alloc())?;
    assert!(rt; !tasks.put_ended(30)? && tasks.has(10));
    assert!(rt; tasks.end() && tasks.put_ended(30)?);
    assert!(rt; tasks.has(30) && tasks.is_asked_by(&[8, 9]));
    assert!(rt; tasks.next() == Some((2, 20)) && tasks.next() == None);
    Ok(())
}

/// The task 10 of key 1, which asks for 2, and the promise 8 for 1, in room made ahead.
fn reserved(alloc: Global, one: &Arc<u32>, two: &Arc<u32>) -> Result<Table<u32, u64>, NoMemory> {
    let mut table = Table::new(alloc, Seed::fixed());
    table.reserve(one)?;
    table.make_reserved(one, 10);
    table.reserve_promise(one)?;
    table.add_promise(one, 8);
    let wait = Wait::new(two, one)?;
    table.reserve_asker(two)?;
    table.reserve_waits(one, 1)?;
    table.add_wait(wait);
    Ok(table)
}

/// What `reserved` makes.
fn reserved_tasks(alloc: Global) -> Result<Tasks, NoMemory> {
    let one = Arc::new(alloc, 1)?;
    let two = Arc::new(alloc, 2)?;
    let table = reserved(alloc, &one, &two)?;
    Ok(Tasks { one, two, table })
}

#[test]
fn room_made_ahead_is_filled(rt: HostRuntime) -> Result<(), Fail> {
    let mut tasks = reserved_tasks(rt.alloc())?;
    assert!(rt; tasks.has(10) && tasks.runs() && tasks.is_asked_by(&[8]));
    assert!(rt; tasks.counts() == (1, 1));
    assert!(rt; tasks.take_asker() == Some(1) && tasks.take_asker() == None);
    assert!(rt; tasks.counts() == (0, 0));
    Ok(())
}

#[test]
fn a_table_that_was_cleared_is_like_a_new_one(rt: HostRuntime) -> Result<(), Fail> {
    let mut tasks = shared_tasks(rt.alloc())?;
    assert!(rt; tasks.table.place_count() == 2);
    tasks.table.clear();
    assert!(rt; tasks.table.place_count() == 0 && !tasks.has(10) && tasks.is_asked_by(&[]));
    assert!(rt; make(&mut tasks.table, &tasks.one, 30)? && tasks.has(30));
    assert!(rt; tasks.next() == Some((1, 30)) && tasks.next() == None);
    Ok(())
}
