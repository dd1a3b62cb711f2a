// What no clause says: that a hierarchy is made a netlist with ample memory.
ghost use Rattle.std.specs.Prelude.{◌≡◌, IfOk};
ghost use Rattle.test_circuits.specs.OneLatch.{worked, worked_texts};

use blif_flat::{NoMemory, flat_netlist};
use blif_flattening::{Item, Model};
use blif_model::{LineKind, ModelLine, NameTable};
use netlist::Init;
use psl_base::Items;
use std::alloc::Global;
use std::test::Fail;

// A model with a latch.
fn hierarchy(alloc: Global) -> Result<Items<Model<ModelLine>>, NoMemory>
    ensures { IfOk result (λ models. models ≡ worked) }
{
    let mut items = Items::new(alloc);
    items.push(Item::Own(ModelLine {
        mentions: Items::from_slice(alloc, &[0u32, 1])?,
        kind: LineKind::Latch(Init::Zero),
    }))?;
    let mut models = Items::new(alloc);
    models.push(Model { names: 2, items })?;
    Ok(models)
}

// The names of the model.
fn names<'a>(alloc: Global) -> Result<Items<NameTable<'a>>, NoMemory>
    ensures { IfOk result (λ texts. texts ≡ worked_texts) }
{
    let mut names = NameTable::new(alloc);
    names.add("n".as_bytes())?;
    names.add("q".as_bytes())?;
    let mut texts = Items::new(alloc);
    texts.push(names)?;
    Ok(texts)
}

#[test]
#[tactic(auto, using(crate::proofs::OneLatch::worked_named, crate::proofs::OneLatch::worked_room, crate::proofs::OneLatch::worked_titled))]
fn a_latch_alone(rt: HostRuntime) -> Result<(), Fail> {
    let models = hierarchy(rt.alloc())?;
    let texts = names(rt.alloc())?;
    let made = flat_netlist(rt.alloc(), &models, &texts)?;
    assert_eq!(rt;
        (
            made.signals,
            made.parts.latches.len(),
            made.parts.tables.len(),
            made.names.len()
        ),
        (2, 1, 0, 2)
    );
    Ok(())
}
