// What no clause says: that answers are given with ample memory.
ghost use Rattle.std.specs.Prelude.{◌≡◌, ◌+◌, ◌<◌, ◌^◌, IfOk};
ghost use Rattle.blif_hierarchy.specs.Sums.{FitsWords};
ghost use Rattle.test_circuits.specs.PlacedOnce.{worked};

use blif_flattening::{Item, Model, Placement};
use blif_hierarchy::{
    NoMemory, PlacementAt, Scale, first_recursive, first_too_deep, first_too_large,
};
use psl_base::Items;
use std::alloc::Global;
use std::test::Fail;

// The top, with two names, places a model; the other model has so many names.
fn hierarchy(alloc: Global, names: u32, placed: u32) -> Result<Items<Model<u32>>, NoMemory>
    ensures { IfOk result (λ models. models ≡ worked names placed) }
{
    let mut items = Items::new(alloc);
    items.push(Item::Place(Placement {
        model: placed,
        connections: Items::new(alloc),
    }))?;
    let mut models = Items::new(alloc);
    models.push(Model { names: 2, items })?;
    models.push(Model {
        names,
        items: Items::new(alloc),
    })?;
    Ok(models)
}

// So many signals and instances, and so much for names, whose lines take nothing.
fn scale(alloc: Global, count: u32, size: u32) -> Scale
    requires count { count + 1 < 2 ^ 32 }
    requires size { size + 1 < 2 ^ 32 }
    ensures { FitsWords result }
{
    Scale {
        count,
        size,
        starts: Items::new(alloc),
    }
}

const FIRST: PlacementAt = PlacementAt {
    model: 0,
    placement: 0,
};

#[test]
#[tactic(auto, using(crate::proofs::PlacedOnce::worked_closed, crate::proofs::PlacedOnce::worked_in_form))]
fn a_model_below_the_top(rt: HostRuntime) -> Result<(), Fail> {
    let models = hierarchy(rt.alloc(), 3, 1)?;
    assert!(rt; first_recursive(rt.alloc(), &models)?.is_none());
    assert!(rt; first_too_deep(rt.alloc(), &models)?.is_none());
    Ok(())
}

// The top has two names and the model below it three, each of which takes 64.
#[test]
#[tactic(auto, using(crate::proofs::PlacedOnce::worked_closed, crate::proofs::PlacedOnce::worked_in_form))]
fn sums_and_their_limits(rt: HostRuntime) -> Result<(), Fail> {
    let models = hierarchy(rt.alloc(), 3, 1)?;
    let fits = scale(rt.alloc(), 5, 320);
    assert!(rt; first_too_large(rt.alloc(), &models, &fits)?.is_none());
    let few_signals = scale(rt.alloc(), 4, 320);
    assert!(rt; first_too_large(rt.alloc(), &models, &few_signals)? == Some(0));
    let small = scale(rt.alloc(), 5, 319);
    assert!(rt; first_too_large(rt.alloc(), &models, &small)? == Some(0));
    Ok(())
}

#[test]
#[tactic(auto, using(crate::proofs::PlacedOnce::worked_closed))]
fn a_model_within_itself(rt: HostRuntime) -> Result<(), Fail> {
    let models = hierarchy(rt.alloc(), 3, 0)?;
    assert!(rt; first_recursive(rt.alloc(), &models)? == Some(FIRST));
    assert!(rt; first_too_deep(rt.alloc(), &models)? == Some(FIRST));
    Ok(())
}
