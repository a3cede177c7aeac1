//! Values on a shelf, on the example universe.
ghost use Rattle.std.specs.Prelude.{IfOk, ◌≡◌, [], ◌∷◌};
ghost use Rattle.std.specs.Arc.{arc_value};
ghost use Rattle.dice_model.specs.Log.{pairs_of};
ghost use Rattle.tiny_universe.specs.declared.place.Place.TheVariants.{Cell};
ghost use Rattle.tiny_universe.specs.declared.place.Value.TheVariants.{Number};

use dice_key::{NoMemory, Seed};
use shelf::{LookRefusal, Reader, ShelfOp, Shelver};
use std::alloc::Global;
use std::sync::{Arc, Wait};
use std::test::Fail;
use tiny_universe::{Place, Tiny, Value};

/// The changes of a commit that sets one cell.
fn one_change(
    alloc: Global,
    key: &Arc<Place>,
    value: &Arc<Value>,
) -> Result<Vec<(Arc<Place>, Arc<Value>)>, NoMemory>
    ensures { IfOk result (λ c. pairs_of c.items ≡ (arc_value key.now, arc_value value.now) ∷ []) }
{
    let mut changes = Vec::new(alloc);
    changes.push((Arc::try_clone(key)?, Arc::try_clone(value)?))?;
    Ok(changes)
}

/// Appends a commit of one cell, and the row of that cell at the version that the commit makes.
fn fill(alloc: Global, shelver: &mut Shelver<Tiny>) -> Result<(), NoMemory>
    requires { shelver.old.list ≡ [] }
{
    let key = Arc::new(alloc, Place::Cell(2))?;
    let value = Arc::new(alloc, Value::Number(40))?;
    let changes = one_change(alloc, &key, &value)?;
    shelver.append(ShelfOp::Commit(Arc::new(alloc, changes)?))?;
    shelver.append(ShelfOp::Row(1, key, value))
}

type Looked = Result<Option<Arc<Value>>, LookRefusal>;

/// The number that a look finds.
fn number(looked: &Looked) -> Option<u64> {
    match looked {
        Ok(Some(value)) => match **value {
            Value::Number(n) => Some(n),
            _ => None,
        },
        _ => None,
    }
}

/// What looks find before a publish, and after it, once the reader learnt of it: at the row's
/// version and at the next one.
fn looks<R: Wait>(
    rt: &R,
    alloc: Global,
    shelver: &mut Shelver<Tiny>,
    reader: &mut Reader<Tiny>,
) -> Result<[Looked; 4], NoMemory>
    requires { shelver.old.list ≡ [] }
{
    fill(alloc, shelver)?;
    let before = reader.look(1, &Place::Cell(2));
    shelver.publish(rt)?;
    let after = reader.look(1, &Place::Cell(2));
    reader.learn(shelver.told());
    let told = reader.look(1, &Place::Cell(2));
    let next = reader.look(2, &Place::Cell(2));
    Ok([before, after, told, next])
}

/// Whether the looks find what they have to.
fn are_as_wanted(found: &[Looked; 4]) -> bool {
    matches!(found[0], Ok(None))
        && number(&found[1]) == Some(40)
        && number(&found[2]) == Some(40)
        && matches!(found[3], Ok(None))
}

#[test]
fn a_reader_sees_what_is_published(rt: HostRuntime) -> Result<(), Fail> {
    let (mut shelver, mut readers) = Shelver::<Tiny>::new(rt.alloc(), Seed::fixed(), 2)?;
    let found = match readers.first_mut() {
        Some(reader) => looks(&rt, rt.alloc(), &mut shelver, reader),
        None => Err(NoMemory),
    };
    shelver.end(&rt);
    let mut shut = false;
    let mut refused = 0;
    if let Some(reader) = readers.first_mut() {
        shut = matches!(reader.look(1, &Place::Cell(2)), Err(LookRefusal::Shut));
        refused = reader.refused();
    }
    let as_wanted = match &found {
        Ok(found) => are_as_wanted(found),
        Err(_) => false,
    };
    drop((found, readers));
    assert!(rt; as_wanted && shut && refused == 1);
    Ok(())
}
