//! The operands of lines, read so that what was read last is not read anew.
ghost use Rattle.script.specs.Taking.{IsPathRead, IsNameRead, IsLabelRead};

use crate::fault::Stop;
use crate::name::Name;
use crate::operand::{read_label, read_name, read_path};
use buck_label::{Label, Path};
use std::alloc::Global;

/// A reader of operands, with the path, the names and the label that it read last. One that stands
/// again is shared: its bytes are neither tested nor copied nor hashed a second time.
#[derive(Drop)]
pub(crate) struct Reader {
    alloc: Global,
    path: Option<Path>,
    transaction: Option<Name>,
    request: Option<Name>,
    label: Option<Label>,
}

impl Reader {
    pub(crate) fn new(alloc: Global) -> Reader {
        Reader {
            alloc,
            path: None,
            transaction: None,
            request: None,
            label: None,
        }
    }

    pub(crate) fn alloc(&self) -> Global {
        self.alloc
    }

    pub(crate) fn path(&mut self, bytes: &[u8]) -> Result<Path, Stop>
        ensures { IsPathRead bytes.now result }
    {
        if let Some(path) = &self.path {
            if bytes.len() <= 255 && path.as_bytes() == bytes {
                return Ok(path.try_clone()?);
            }
        }
        let path = read_path(self.alloc, bytes)?;
        self.path = Some(path.try_clone()?);
        Ok(path)
    }

    /// Reads the name of a transaction.
    pub(crate) fn transaction(&mut self, bytes: &[u8]) -> Result<Name, Stop>
        ensures { IsNameRead bytes.now result }
    {
        name_again(self.alloc, &mut self.transaction, bytes)
    }

    /// Reads the name of a request.
    pub(crate) fn request(&mut self, bytes: &[u8]) -> Result<Name, Stop>
        ensures { IsNameRead bytes.now result }
    {
        name_again(self.alloc, &mut self.request, bytes)
    }

    pub(crate) fn label(&mut self, bytes: &[u8]) -> Result<Label, Stop>
        ensures { IsLabelRead bytes.now result }
    {
        if let Some(label) = &self.label {
            if label.is_written(bytes) {
                return Ok(label.try_clone()?);
            }
        }
        let label = read_label(self.alloc, bytes)?;
        self.label = Some(label.try_clone()?);
        Ok(label)
    }
}

fn name_again(alloc: Global, last: &mut Option<Name>, bytes: &[u8]) -> Result<Name, Stop>
    ensures { IsNameRead bytes.now result }
{
    if let Some(name) = last {
        if name.as_bytes() == bytes {
            return Ok(name.try_clone()?);
        }
    }
    let name = read_name(alloc, bytes)?;
    *last = Some(name.try_clone()?);
    Ok(name)
}
