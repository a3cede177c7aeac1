//! The bulk script, and how many requests it has.
ghost use Rattle.std.specs.Prelude.{◌≡◌, ◌++◌, OnOk, IfOk};
ghost use Rattle.bulk_script.specs.Spelled.{spelled, text_of};
ghost use Rattle.bulk_script.specs.Bulk.{source_put, source_puts, package_put, package_puts, round_in, bulk, requests};

use crate::append::{ask, commit_and_open, number, put};
use crate::rules::{PACKAGE, SOURCES, package_rules, source_rules};
use dice_key::NoMemory;
use std::alloc::Global;

/// Every target whose number is a multiple of this is asked for.
const STEP: u32 = 10;

fn put_source(alloc: Global, script: &mut Vec<u8>, source: u64) -> Result<(), NoMemory>
    ensures { OnOk result (script.new.items ≡ script.old.items ++ spelled (source_put source)) }
{
    let mut path = Vec::from_slice(alloc, b"src/s")?;
    number(&mut path, source)?;
    let mut file = Vec::new(alloc);
    number(&mut file, source)?;
    put(script, &path, &file)
}

fn put_sources(alloc: Global, script: &mut Vec<u8>) -> Result<(), NoMemory>
    ensures { OnOk result (script.new.items ≡ script.old.items ++ text_of source_puts) }
{
    let rules = source_rules(alloc)?;
    put(script, b"src/BUCK", &rules)?;
    for source in 0..SOURCES {
        put_source(alloc, script, source)?;
    }
    Ok(())
}

fn put_package(
    alloc: Global,
    script: &mut Vec<u8>,
    targets: u32,
    index: u32,
) -> Result<(), NoMemory>
    ensures { OnOk result
        (script.new.items ≡ script.old.items ++ spelled (package_put targets index)) }
{
    let mut path = Vec::from_slice(alloc, b"p")?;
    number(&mut path, index as u64)?;
    path.extend_from_slice(b"/BUCK")?;
    let rules = package_rules(alloc, targets, index)?;
    put(script, &path, &rules)
}

fn put_packages(alloc: Global, script: &mut Vec<u8>, targets: u32) -> Result<(), NoMemory>
    ensures { OnOk result (script.new.items ≡ script.old.items ++ text_of (package_puts targets)) }
{
    let packages = targets.saturating_sub(1) / PACKAGE + 1;
    for index in 0..packages {
        put_package(alloc, script, targets, index)?;
    }
    Ok(())
}

/// Commits what was put, and asks for every tenth target in a new transaction.
fn ask_round(script: &mut Vec<u8>, transaction: &[u8], targets: u32) -> Result<(), NoMemory>
    ensures { OnOk result
        (script.new.items ≡ script.old.items ++ text_of (round_in transaction.now targets)) }
{
    commit_and_open(script, transaction)?;
    for target in 0..targets {
        if target % STEP == 0 {
            ask(script, transaction, target as u64)?;
        }
    }
    Ok(())
}

/// The script of so many targets. It puts sixteen sources, and the targets in packages of a
/// hundred. It asks for every tenth target, changes the first source, and asks for them again.
///
/// The time is that of writing it: about ninety bytes a target.
pub fn bulk_script(alloc: Global, targets: u32) -> Result<Vec<u8>, NoMemory>
    ensures { IfOk result (λ script. script.items ≡ bulk targets) }
{
    let mut script = Vec::new(alloc);
    put_sources(alloc, &mut script)?;
    put_packages(alloc, &mut script, targets)?;
    ask_round(&mut script, b"a", targets)?;
    put(&mut script, b"src/s0", b"x")?;
    ask_round(&mut script, b"b", targets)?;
    Ok(script)
}

/// How many requests that script has.
pub fn request_count(targets: u32) -> u64
    ensures { result ≡ requests targets }
{
    (targets as u64).div_ceil(STEP as u64) * 2
}
