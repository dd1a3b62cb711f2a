// What follows from the definitions alone.
ghost use Rattle.std.specs.Prelude.{List};
ghost use Rattle.netlist.specs.declared.table.Table.{Table};
ghost use Rattle.gates_frames.specs.Frames.{AreCovers};
ghost use Rattle.gates_covers.specs.Greedy.{covers_of};

/// A law: the covers of tables are covers of them.
pub fn covers_law()
    ensures { (tables : List Table) → AreCovers tables (covers_of tables) }
{}
