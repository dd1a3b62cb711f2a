// The lines of a model up to where something is placed.
ghost use Rattle.std.specs.Prelude.{◌≡◌, take, drop};

use blif_flattening::Item;
use blif_model::ModelLine;

// The first of some lines, all where there are fewer.
pub(crate) fn first_items<'a>(items: &'a [Item<ModelLine>], count: usize) -> &'a [Item<ModelLine>]
    ensures { result.now ≡ take count items.now }
{
    &items[..count.min(items.len())]
}

// What is behind them.
pub(crate) fn rest_items<'a>(items: &'a [Item<ModelLine>], count: usize) -> &'a [Item<ModelLine>]
    ensures { result.now ≡ drop count items.now }
{
    &items[count.min(items.len())..]
}
