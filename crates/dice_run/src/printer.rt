//! The output of a script, from what was done.
ghost use Rattle.std.specs.Prelude.{◌≡◌, ◌∷◌, ℕ, List, OnOk, IfOk, drop};
ghost use Rattle.script_trace.specs.Output.{IsOutput};
ghost use Rattle.dice_run.specs.Printing.{IsDone, IsNext, Prints, Told, Opened, MayReply, Replies};

use crate::append;
use crate::driver::Driver;
use buck_label::Text;
use dice_key::{NoMemory, Seed};
use script::{Line, Name, Request, Script};
use std::alloc::Global;
use std::collections::HashMap;

/// What is printed, how many commits of the script were told, the newest version after them, and
/// the versions of the transactions.
#[derive(Drop)]
pub(crate) struct Printer {
    out: Vec<u8>,
    told: usize,
    newest: u64,
    versions: HashMap<Text, u64, Seed>,
}

/// The output of a script that was carried out: what each line prints, in the order of the lines.
pub(crate) fn print(alloc: Global, script: &Script, driver: &Driver) -> Result<Vec<u8>, NoMemory>
    requires { IsDone script.now driver.now }
    ensures { IfOk result (λ out. IsOutput script.now out.items) }
{
    let mut printer = Printer {
        out: Vec::new(alloc),
        told: 0,
        newest: 0,
        versions: HashMap::with_hasher(alloc, script.seed()),
    };
    for line in script.lines() {
        printer.line(script, driver, line)?;
    }
    Ok(printer.into_output())
}

impl Printer {
    fn into_output(self) -> Vec<u8>
        ensures { result ≡ self.out }
    {
        self.out
    }

    /// What a line prints.
    fn line(&mut self, script: &Script, driver: &Driver, line: &Line) -> Result<(), NoMemory>
        requires { IsNext script.now driver.now self.old line.now }
        ensures { OnOk result (Prints script.now driver.now self.old self.new line.now) }
    {
        match line {
            Line::Commit => self.commit(driver),
            Line::Open(name) => self.open(name),
            Line::Ask(request) => self.request(script, driver, request),
            Line::Action(request) => self.request(script, driver, request),
            Line::Put(_, _) => Ok(()),
            Line::Drop(_) => Ok(()),
            Line::Wait(_) => Ok(()),
            Line::Cancel(_) => Ok(()),
            Line::Close(_) => Ok(()),
        }
    }

    /// The newest version after a commit.
    fn commit(&mut self, driver: &Driver) -> Result<(), NoMemory>
        requires { (n : ℕ) × (ns : List ℕ) × (drop self.old.told driver.now.newest.items ≡ n ∷ ns) }
        ensures { OnOk result (Told driver.now self.old self.new) }
    {
        let version = driver.newest[self.told];
        self.told += 1;
        self.newest = version;
        append::bytes(&mut self.out, b"commit ")?;
        append::number(&mut self.out, version)?;
        append::bytes(&mut self.out, b"\n")
    }

    /// A transaction, and its version.
    fn open(&mut self, name: &Name) -> Result<(), NoMemory>
        ensures { OnOk result (Opened name.now self.old self.new) }
    {
        self.versions
            .insert(name.as_text().try_clone()?, self.newest)?;
        append::bytes(&mut self.out, b"open ")?;
        append::bytes(&mut self.out, name.as_bytes())?;
        append::bytes(&mut self.out, b" ")?;
        append::number(&mut self.out, self.newest)?;
        append::bytes(&mut self.out, b"\n")
    }

    /// How a request is answered, or that it was cancelled.
    fn request(
        &mut self,
        script: &Script,
        driver: &Driver,
        request: &Request,
    ) -> Result<(), NoMemory>
        requires { MayReply script.now driver.now self.old request.now }
        ensures { OnOk result (Replies script.now driver.now self.old self.new request.now) }
    {
        let Some(version) = self.versions.get(request.transaction.as_text()) else {
            unreachable!()
        };
        append::bytes(&mut self.out, request.name.as_bytes())?;
        append::bytes(&mut self.out, b" ")?;
        append::number(&mut self.out, *version)?;
        append::bytes(&mut self.out, b" ")?;
        if script.is_cancelled(&request.name) {
            return append::bytes(&mut self.out, b"cancelled\n");
        }
        let Some(answer) = driver.answers.get(request.name.as_text()) else {
            unreachable!()
        };
        append::bytes(&mut self.out, answer)
    }
}
