// Models, their lines and placements.
ghost use Rattle.std.specs.Prelude.{◌≡◌};

use psl_base::Items;

/// How many instances a path leads through at the most, the top among them.
pub const DEEPEST: u32 = 64;

/// A name of an instance, which is a signal where it is not connected.
#[derive(Drop)]
pub struct Signal {
    /// The numbers of the placements that lead to the instance from the top, the last one first.
    pub path: Items<usize>,
    /// The name in the model of the instance.
    pub name: u32,
}

/// What a model lists: lines that mention names.
pub trait Line {
    ghost use Rattle.std.specs.Prelude.{ℕ, List};

    // the names that a line mentions, in order
    ghost mentions: { Self → List ℕ };

    /// The names that the line mentions, in order.
    fn mentions(&self) -> &[u32]
        ensures { result.now ≡ mentions self.now };
}

/// A name of the model that is placed, and the name of the placing model that it is connected with.
#[derive(Clone, Copy)]
pub struct Connection {
    /// The name in the model that is placed.
    pub formal: u32,
    /// The name in the model that places it.
    pub actual: u32,
}

/// A model placed within another one.
#[derive(Drop)]
pub struct Placement {
    /// Which model, as its number in the list of models.
    pub model: u32,
    /// What its formals are connected with. Of several with one formal the first counts.
    pub connections: Items<Connection>,
}

/// What stands in a model.
#[derive(Drop)]
pub enum Item<L> {
    /// A line of its own.
    Own(L),
    /// A placement of another model.
    Place(Placement),
}

/// A model: how many names it has, and what it lists, in order.
#[derive(Drop)]
pub struct Model<L> {
    /// How many names there are; they are numbered from 0.
    pub names: u32,
    /// Its lines and placements.
    pub items: Items<Item<L>>,
}
