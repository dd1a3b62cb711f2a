// The instances that a walk opens: their paths, and the cells of their names.
ghost use Rattle.std.specs.Prelude.{◌≡◌, ◌≢◌, ◌<◌, ◌^◌, ◌∷◌, length, All, IfOk, OnOk};
ghost use Rattle.std.specs.Option.{ForSome};
ghost use Rattle.blif_flattening.specs.declared.model.Signal.{Signal as SignalValue};
ghost use Rattle.blif_flattening.specs.Members.{Among};
ghost use Rattle.blif_flattening.specs.Instances.{HasActuals, AreCells, Opens, OpensName, opened_by, own_signal};

use crate::cells::Cells;
use crate::model::{Connection, Signal};
use psl_base::{Items, NoMemory};
use std::alloc::Global;

/// An instance: its path, its model, and the cell of each of the model's names.
#[derive(Drop)]
pub(crate) struct Instance {
    pub(crate) path: Items<usize>,
    pub(crate) model: usize,
    pub(crate) cells: Items<usize>,
}

/// The path of a placement in an instance.
pub(crate) fn path_below(alloc: Global, path: &[usize], k: usize) -> Result<Items<usize>, NoMemory>
    ensures { IfOk result (λ below. below ≡ k ∷ path.now) }
{
    let mut below = Vec::with_capacity(alloc, 1)?;
    below.push(k)?;
    below.extend_from_slice(path)?;
    Ok(Items::from_vec(below))
}

/// What each of so many names is connected with. Of several connections of one formal the first counts.
pub(crate) fn actuals_of(
    alloc: Global,
    connections: &[Connection],
    count: u32,
) -> Result<Vec<Option<u32>>, NoMemory>
    ensures { IfOk result (λ actuals. HasActuals connections.now count actuals.items) }
{
    let mut actuals = vec![in alloc; None; count as usize]?;
    let mut index = connections.len();
    while index > 0 {
        index -= 1;
        let connection = connections[index];
        if connection.formal < count {
            actuals[connection.formal as usize] = Some(connection.actual);
        }
    }
    Ok(actuals)
}

/// The cells of the names of an instance: new ones, but for those that are connected with names above.
pub(crate) fn open(
    alloc: Global,
    table: &mut Cells,
    above: &[usize],
    path: &Items<usize>,
    actuals: &[Option<u32>],
) -> Result<Items<usize>, NoMemory>
    requires few { length actuals.now < 2 ^ 32 }
    requires fresh { (signal : SignalValue) → Among signal table.old.owners → signal.path ≢ path.now }
    requires above { All (λ cell. cell < length table.old.owners) above.now }
    requires actuals { All (λ actual. ForSome actual (λ name. name < length above.now)) actuals.now }
    ensures cells { IfOk result (λ cells. AreCells table.new.owners cells (length actuals.now)
        (opened_by table.old.owners above.now path.now actuals.now)) }
    ensures opens { OnOk result (Opens path.now (length actuals.now) table.old.owners table.new.owners) }
    ensures seen { OnOk result (table.new.seen ≡ table.old.seen) }
{
    let mut cells = Vec::with_capacity(alloc, actuals.len())?;
    for name in 0..actuals.len() {
        let cell = open_name(alloc, table, above, path, name as u32, actuals[name])?;
        cells.push(cell)?;
    }
    Ok(Items::from_vec(cells))
}

// The cell of one name: that of its actual, or a new one.
fn open_name(
    alloc: Global,
    table: &mut Cells,
    above: &[usize],
    path: &Items<usize>,
    name: u32,
    actual: Option<u32>,
) -> Result<usize, NoMemory>
    requires fresh { Among (own_signal path.now name) table.old.owners → ⊥ }
    requires above { All (λ cell. cell < length table.old.owners) above.now }
    requires actual { ForSome actual (λ name. name < length above.now) }
    ensures opens { IfOk result (λ cell.
        OpensName above.now path.now name actual table.old.owners table.new.owners cell) }
    ensures seen { OnOk result (table.new.seen ≡ table.old.seen) }
{
    match actual {
        Some(actual) => Ok(above[actual as usize]),
        None => {
            let path = path.copy(alloc)?;
            table.add(Signal { path, name })
        }
    }
}
