// The laws of flattening. No code runs.
ghost use Rattle.blif_flattening.specs.Unfolds.{UnfoldsToTrees, UnfoldsFlatOnly, UnfoldsToEach, UnfoldsFromOne};

use crate::model::{Line, Model};
use psl_base::Items;

/// Law of hierarchies: what unfolds flat valuations is one to one, and reaches all instance trees. A flat valuation has
/// a value for each signal; an instance tree has one for each name of each instance, and a connected formal has its
/// actual's. So what holds of the flat lines holds of the hierarchy.
pub fn unfolding_is_one_to_one<L: Line>(models: &Items<Model<L>>)
    ensures trees { UnfoldsToTrees L.mentions models.now }
    ensures flat { UnfoldsFlatOnly L.mentions models.now }
    ensures each { UnfoldsToEach L.mentions models.now }
    ensures one { UnfoldsFromOne L.mentions models.now }
{
    let _models = models;
}
