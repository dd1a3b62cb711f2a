// Signals that are kept, and listed as they are found.
ghost use Rattle.std.specs.Prelude.{[], ◌∷◌, ◌<◌, length, All, OnOk};
ghost use Rattle.gates_cone.specs.Keeping.{AreListed, GoesOn, Keeps};

use psl_base::NoMemory;

/// Keeps a signal, and lists it where it was not kept before.
pub(crate) fn keep(kept: &mut [bool], found: &mut Vec<u32>, signal: u32) -> Result<(), NoMemory>
    requires signal { signal < length kept.old }
    requires listed { AreListed kept.old found.old.items }
    ensures keeps { OnOk result (Keeps kept.old kept.new (signal ∷ [])) }
    ensures listed { OnOk result (AreListed kept.new found.new.items) }
    ensures goes_on { OnOk result (GoesOn found.old.items found.new.items) }
{
    if !kept[signal as usize] {
        kept[signal as usize] = true;
        found.push(signal)?;
    }
    Ok(())
}

/// Keeps some signals.
pub(crate) fn keep_all(
    kept: &mut [bool],
    found: &mut Vec<u32>,
    signals: &[u32],
) -> Result<(), NoMemory>
    requires signals { All (λ signal. signal < length kept.old) signals.now }
    requires listed { AreListed kept.old found.old.items }
    ensures keeps { OnOk result (Keeps kept.old kept.new signals.now) }
    ensures listed { OnOk result (AreListed kept.new found.new.items) }
    ensures goes_on { OnOk result (GoesOn found.old.items found.new.items) }
{
    for i in 0..signals.len() {
        keep(kept, found, signals[i])?;
    }
    Ok(())
}
