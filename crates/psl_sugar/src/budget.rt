ghost use Rattle.std.specs.Prelude.{◌≡◌, ◌<◌, ◌≤◌, IfOk, IfErr};
ghost use Rattle.psl_tree.specs.declared.counts.TheConstants.{MOST_CONSTRUCTORS};

use crate::SugarFault;
use psl_tree::MOST_CONSTRUCTORS;

/// The size of a tree, if a tree may have it.
pub(crate) fn within(size: u32) -> Result<u32, SugarFault>
    ensures within { IfOk result (λ same. (same ≡ size) × (size ≤ MOST_CONSTRUCTORS)) }
    ensures beyond { IfErr result (λ fault. MOST_CONSTRUCTORS < size) }
{
    if u64::from(size) > MOST_CONSTRUCTORS {
        Err(SugarFault::TooLarge)
    } else {
        Ok(size)
    }
}
