// What no clause says: that a hierarchy is flattened with ample memory.
ghost use Rattle.std.specs.Prelude.{◌≡◌, [], ◌∷◌, IfOk};
ghost use Rattle.test_circuits.specs.PlacedTwice.{worked};

use blif_flattening::{Connection, Item, Line, Model, NoMemory, Placement, flatten};
use psl_base::{Items, Numbers};
use std::alloc::Global;
use std::test::Fail;

// A line that only mentions names.
#[derive(Drop)]
struct Plain {
    names: Numbers,
}

impl Line for Plain {
    ghost mentions = { λ line. line.names };

    fn mentions(&self) -> &[u32] {
        self.names.as_slice()
    }
}

fn line(alloc: Global, names: &[u32]) -> Result<Item<Plain>, NoMemory>
    ensures { IfOk result (λ item. item ≡ Item.Own (record { names = names.now })) }
{
    Ok(Item::Own(Plain {
        names: Items::from_slice(alloc, names)?,
    }))
}

// The top places model 1 with its first name on its own first name, and then with nothing connected.
fn hierarchy(alloc: Global) -> Result<Items<Model<Plain>>, NoMemory>
    ensures { IfOk result (λ models. models
        ≡ worked (record { names = 1 ∷ 0 ∷ [] }) (record { names = 0 ∷ 1 ∷ [] })) }
{
    let mut top = Items::new(alloc);
    let joined = Items::from_slice(
        alloc,
        &[Connection {
            formal: 0,
            actual: 0,
        }],
    )?;
    top.push(Item::Place(Placement {
        model: 1,
        connections: joined,
    }))?;
    top.push(Item::Place(Placement {
        model: 1,
        connections: Items::new(alloc),
    }))?;
    let mut lower = Items::new(alloc);
    lower.push(line(alloc, &[1, 0])?)?;
    lower.push(line(alloc, &[0, 1])?)?;
    let mut models = Items::new(alloc);
    models.push(Model {
        names: 1,
        items: top,
    })?;
    models.push(Model {
        names: 2,
        items: lower,
    })?;
    Ok(models)
}

#[test]
fn flattens_two_instances(rt: HostRuntime) -> Result<(), Fail> {
    let models = hierarchy(rt.alloc())?;
    let flat = flatten(rt.alloc(), &models)?;
    assert_eq!(rt; (flat.signals, flat.lines.len()), (4, 4));
    let expected = [[0u32, 1], [1, 0], [2, 3], [3, 2]];
    for (place, numbers) in expected.iter().enumerate() {
        if place < flat.lines.len() {
            assert_eq!(rt; flat.lines.at(place).numbers.as_slice(), numbers.as_slice());
        }
    }
    Ok(())
}
