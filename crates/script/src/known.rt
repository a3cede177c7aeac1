//! What is known of the lines so far, and the tests of the next one.
ghost use Rattle.std.specs.Prelude.{◌≡◌, ◌≤◌, ◌<◌, length, true, Some, IfOk};
ghost use Rattle.script.specs.Past.{nothing, fate_of, is_given_up};
ghost use Rattle.script.specs.Faults.{puts, drops, commits, opens, asks, acts, waits, cancels, closes};
ghost use Rattle.script.specs.Known.{past_of, with_path, with_request};
ghost use Rattle.script.specs.Seen.{form_seen};
ghost use Rattle.script.specs.Taking.{IsUntouched, IsPutRead, IsRequestRead, IsTaken, IsLineTaken, IsTested, in_open, fresh};

use crate::fate::Fate;
use crate::fault::{Stop, Word};
use crate::form::{Form, before, form_of};
use crate::line::{Line, Request};
use crate::name::Name;
use crate::names::Names;
use crate::number::small_number;
use crate::operand::{is_enough, is_skipped, past_byte};
use crate::reader::Reader;
use crate::requests::Requests;
use crate::transactions::Transactions;
use buck_label::{Path, Text};
use hash_seed::Seed;
use std::alloc::Global;

/// The paths put or dropped since the last commit, the transactions opened, and the requests made.
///
/// A transaction that is closed leaves its requests as they were noted: what has become of one is
/// told by its own note and by its transaction. So a `close` takes no longer than a look-up.
#[derive(Drop)]
pub(crate) struct Known {
    touched: Names,
    transactions: Transactions,
    requests: Requests,
}

impl Known {
    pub(crate) fn new(alloc: Global, seed: Seed) -> Known
        ensures { past_of result ≡ nothing }
    {
        Known {
            touched: Names::new(alloc, seed),
            transactions: Transactions::new(alloc, seed),
            requests: Requests::new(alloc, seed),
        }
    }

    /// What has become of a request; `None` if none has this name.
    fn fate_of(&self, name: &Text) -> Option<Fate>
        ensures { result ≡ fate_of (past_of self.now) name.now }
    {
        let Some(asked) = self.requests.get(name) else {
            return None;
        };
        match self.transactions.is_open(&asked.transaction) {
            Some(false) => Some(asked.fate.given_up()),
            Some(true) | None => Some(asked.fate),
        }
    }

    /// Whether a request was given up.
    pub(crate) fn is_given_up(&self, name: &Text) -> bool
        ensures { result ≡ is_given_up (fate_of (past_of self.now) name.now) }
    {
        matches!(self.fate_of(name), Some(Fate::Cancelled))
    }

    /// Notes a path that is put or dropped, tested in order: path, twice.
    fn touch(&mut self, reader: &mut Reader, path: &[u8]) -> Result<Path, Stop>
        ensures tested { IsUntouched (past_of self.old) path.now result }
        ensures noted { IfOk result (λ p. past_of self.new ≡ with_path p (past_of self.old)) }
    {
        let path = reader.path(path)?;
        if !self.touched.add(path.as_text())? {
            return Err(Stop::Fault(Word::Twice));
        }
        Ok(path)
    }

    /// Notes the operands of a put, tested in order: path, twice, number, count.
    fn put_operands(
        &mut self,
        reader: &mut Reader,
        path: &[u8],
        number: &[u8],
        behind: &[u8],
    ) -> Result<(Path, usize), Stop>
        ensures tested { IsPutRead (past_of self.old) path.now number.now behind.now result }
        ensures noted { IfOk result (λ r. past_of self.new ≡ with_path r.0 (past_of self.old)) }
        ensures fits { IfOk result (λ r. r.1 ≤ length behind.now) }
    {
        let path = self.touch(reader, path)?;
        match small_number(number) {
            None => Err(Stop::Fault(Word::Number)),
            Some(count) if is_enough(count, behind) => Ok((path, count)),
            Some(_) => Err(Stop::Fault(Word::Count)),
        }
    }

    fn put(
        &mut self,
        reader: &mut Reader,
        path: &[u8],
        number: &[u8],
        behind: &[u8],
    ) -> Result<(Line, usize), Stop>
        ensures taken { IsTaken (past_of self.old) (puts path.now number.now) behind.now result
            (past_of self.new) }
        ensures fits { IfOk result (λ r. r.1 ≤ length behind.now) }
    {
        let (path, count) = self.put_operands(reader, path, number, behind)?;
        let bytes = Text::from_slice(reader.alloc(), &behind[..count])?;
        let taken = past_byte(behind, count);
        Ok((Line::Put(path, bytes), taken))
    }

    /// The name of an open transaction, tested in order: name, open.
    fn open_transaction(&self, reader: &mut Reader, t: &[u8]) -> Result<Name, Stop>
        ensures { IsTested (in_open (past_of self.now) t.now) t.now result }
    {
        let name = reader.transaction(t)?;
        if self.transactions.is_open(name.as_text()) != Some(true) {
            return Err(Stop::Fault(Word::Open));
        }
        Ok(name)
    }

    /// Notes a new request in a transaction that is open, its name tested in order: name, taken.
    fn note_request(
        &mut self,
        reader: &mut Reader,
        name: &[u8],
        transaction: &Name,
    ) -> Result<Name, Stop>
        requires { (past_of self.old).opened transaction.now ≡ Some true }
        ensures tested { IsTested (fresh (past_of self.old) name.now) name.now result }
        ensures noted { IfOk result
            (λ n. past_of self.new ≡ with_request n transaction.now (past_of self.old)) }
    {
        let name = reader.request(name)?;
        if !self.requests.add(name.as_text(), transaction.as_text())? {
            return Err(Stop::Fault(Word::Taken));
        }
        Ok(name)
    }

    /// Notes the operands of a request, tested in order: the transaction, its name, the label.
    fn request(
        &mut self,
        reader: &mut Reader,
        t: &[u8],
        name: &[u8],
        label: &[u8],
    ) -> Result<Request, Stop>
        ensures tested { IsRequestRead (past_of self.old) t.now name.now label.now result }
        ensures noted { IfOk result
            (λ r. past_of self.new ≡ with_request r.name r.transaction (past_of self.old)) }
    {
        let transaction = self.open_transaction(reader, t)?;
        let name = self.note_request(reader, name, &transaction)?;
        let label = reader.label(label)?;
        Ok(Request {
            transaction,
            name,
            label,
        })
    }

    fn drop_path(
        &mut self,
        reader: &mut Reader,
        path: &[u8],
        behind: &[u8],
    ) -> Result<(Line, usize), Stop>
        ensures taken { IsTaken (past_of self.old) (drops path.now) behind.now result
            (past_of self.new) }
        ensures fits { IfOk result (λ r. r.1 ≤ length behind.now) }
    {
        let path = self.touch(reader, path)?;
        Ok((Line::Drop(path), 0))
    }

    fn commit(&mut self, reader: &mut Reader, behind: &[u8]) -> Result<(Line, usize), Stop>
        ensures taken { IsTaken (past_of self.old) commits behind.now result (past_of self.new) }
        ensures fits { IfOk result (λ r. r.1 ≤ length behind.now) }
    {
        self.touched.clear(reader.alloc());
        Ok((Line::Commit, 0))
    }

    fn open(&mut self, reader: &mut Reader, t: &[u8], behind: &[u8]) -> Result<(Line, usize), Stop>
        ensures taken { IsTaken (past_of self.old) (opens t.now) behind.now result
            (past_of self.new) }
        ensures fits { IfOk result (λ r. r.1 ≤ length behind.now) }
    {
        let name = reader.transaction(t)?;
        if !self.transactions.open(name.as_text())? {
            return Err(Stop::Fault(Word::Taken));
        }
        Ok((Line::Open(name), 0))
    }

    fn ask(
        &mut self,
        reader: &mut Reader,
        t: &[u8],
        name: &[u8],
        label: &[u8],
        behind: &[u8],
    ) -> Result<(Line, usize), Stop>
        ensures taken { IsTaken (past_of self.old) (asks t.now name.now label.now) behind.now result
            (past_of self.new) }
        ensures fits { IfOk result (λ r. r.1 ≤ length behind.now) }
    {
        let request = self.request(reader, t, name, label)?;
        Ok((Line::Ask(request), 0))
    }

    fn action(
        &mut self,
        reader: &mut Reader,
        t: &[u8],
        name: &[u8],
        label: &[u8],
        behind: &[u8],
    ) -> Result<(Line, usize), Stop>
        ensures taken { IsTaken (past_of self.old) (acts t.now name.now label.now) behind.now result
            (past_of self.new) }
        ensures fits { IfOk result (λ r. r.1 ≤ length behind.now) }
    {
        let request = self.request(reader, t, name, label)?;
        Ok((Line::Action(request), 0))
    }

    fn wait(
        &mut self,
        reader: &mut Reader,
        name: &[u8],
        behind: &[u8],
    ) -> Result<(Line, usize), Stop>
        ensures taken { IsTaken (past_of self.old) (waits name.now) behind.now result
            (past_of self.new) }
        ensures fits { IfOk result (λ r. r.1 ≤ length behind.now) }
    {
        let name = reader.request(name)?;
        match self.fate_of(name.as_text()) {
            None => Err(Stop::Fault(Word::Unknown)),
            Some(Fate::Cancelled) => Err(Stop::Fault(Word::Cancelled)),
            Some(Fate::Answered) => Ok((Line::Wait(name), 0)),
            Some(Fate::Pending) => {
                self.requests.settle(name.as_text(), Fate::Answered);
                Ok((Line::Wait(name), 0))
            }
        }
    }

    fn cancel(
        &mut self,
        reader: &mut Reader,
        name: &[u8],
        behind: &[u8],
    ) -> Result<(Line, usize), Stop>
        ensures taken { IsTaken (past_of self.old) (cancels name.now) behind.now result
            (past_of self.new) }
        ensures fits { IfOk result (λ r. r.1 ≤ length behind.now) }
    {
        let name = reader.request(name)?;
        match self.fate_of(name.as_text()) {
            None => Err(Stop::Fault(Word::Unknown)),
            Some(Fate::Answered) => Err(Stop::Fault(Word::Answered)),
            Some(Fate::Cancelled) => Err(Stop::Fault(Word::Cancelled)),
            Some(Fate::Pending) => {
                self.requests.settle(name.as_text(), Fate::Cancelled);
                Ok((Line::Cancel(name), 0))
            }
        }
    }

    fn close(&mut self, reader: &mut Reader, t: &[u8], behind: &[u8]) -> Result<(Line, usize), Stop>
        ensures taken { IsTaken (past_of self.old) (closes t.now) behind.now result
            (past_of self.new) }
        ensures fits { IfOk result (λ r. r.1 ≤ length behind.now) }
    {
        let name = self.open_transaction(reader, t)?;
        self.transactions.close(name.as_text());
        Ok((Line::Close(name), 0))
    }

    /// Takes a line of this form, and so many of the bytes after it.
    fn form(
        &mut self,
        reader: &mut Reader,
        form: Form,
        behind: &[u8],
    ) -> Result<(Line, usize), Stop>
        ensures taken { IsTaken (past_of self.old) (form_seen form.entry) behind.now result
            (past_of self.new) }
        ensures fits { IfOk result (λ r. r.1 ≤ length behind.now) }
    {
        match form {
            Form::Put(path, number) => self.put(reader, path, number, behind),
            Form::Drop(path) => self.drop_path(reader, path, behind),
            Form::Commit => self.commit(reader, behind),
            Form::Open(t) => self.open(reader, t, behind),
            Form::Ask(t, name, label) => self.ask(reader, t, name, label, behind),
            Form::Action(t, name, label) => self.action(reader, t, name, label, behind),
            Form::Wait(name) => self.wait(reader, name, behind),
            Form::Cancel(name) => self.cancel(reader, name, behind),
            Form::Close(t) => self.close(reader, t, behind),
        }
    }

    /// Takes the first line of a text: what it does, if anything, and how many bytes it takes
    /// with those that belong to it.
    pub(crate) fn line(
        &mut self,
        reader: &mut Reader,
        text: &[u8],
    ) -> Result<(Option<Line>, usize), Stop>
        requires { 0 < length text.now }
        ensures taken { IsLineTaken (past_of self.old) text.now result (past_of self.new) }
        ensures some { IfOk result (λ r. (0 < r.1) × (r.1 ≤ length text.now)) }
    {
        let end = before(b'\n', text);
        let line = &text[..end];
        let behind = past_byte(text, end);
        if is_skipped(line) {
            return Ok((None, behind));
        }
        match form_of(line) {
            None => Err(Stop::Fault(Word::Word)),
            Some(form) => match self.form(reader, form, &text[behind..]) {
                Ok((made, taken)) => Ok((Some(made), behind + taken)),
                Err(stop) => Err(stop),
            },
        }
    }
}
