// How much a search may ask before it pauses.
ghost use Rattle.std.specs.Prelude.{◌≡◌, IsTrue, is_some};

/// Takes one from a budget, where there is one, and says whether it was spent already.
pub(crate) fn is_spent(budget: &mut Option<u64>) -> bool
    ensures limited { IsTrue result → IsTrue (is_some budget.old) }
    ensures stays { is_some budget.new ≡ is_some budget.old }
{
    match *budget {
        None => false,
        Some(0) => true,
        Some(questions) => {
            *budget = Some(questions - 1);
            false
        }
    }
}
