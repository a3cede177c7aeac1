//! Reading a target file.
ghost use Rattle.std.specs.Prelude.{◌≡◌, List, ℕ};
ghost use Rattle.target_file.specs.Reading.{IsRead, IsAnswer};
ghost use Rattle.target_file.specs.Contents.{contents};

use crate::fault::FileFault;
use crate::file::File;
use crate::reader::Reader;
use std::alloc::Global;

/// Reads a target file, in one pass over its bytes.
///
/// `Bad` names the line of the first byte with which no target file goes on; if there is none,
/// and the bytes are no target file, the line of their end. `NoMemory` says nothing of the bytes,
/// and no clause says when it comes.
pub fn read(alloc: Global, bytes: &[u8]) -> Result<File, FileFault>
    ensures grammar { IsRead bytes.now result }
    ensures value { IsAnswer (contents bytes.now) result }
{
    let mut reader = Reader::new(alloc);
    let mut at = 0;
    while at < bytes.len() {
        let line = reader.line;
        match reader.take(&bytes[at..]) {
            Ok(Some(taken)) => at += taken,
            Ok(None) => return Err(FileFault::Bad { line }),
            Err(_) => return Err(FileFault::NoMemory),
        }
    }
    if !reader.is_end() {
        return Err(FileFault::Bad { line: reader.line });
    }
    match reader.into_file() {
        Ok(file) => Ok(file),
        Err(_) => Err(FileFault::NoMemory),
    }
}
