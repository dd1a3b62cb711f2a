// The free nodes of places.
ghost use Rattle.std.specs.Prelude.{◌+◌, ◌<◌, ◌^◌};
ghost use Rattle.std.specs.List.{flat_map, range_with_len};
ghost use Rattle.bounded.specs.Adding.{nodes_of_places, Frees};
ghost use Rattle.bounded.specs.Places.{block};
ghost use Rattle.clauses.specs.declared.flat.TheConstants.{MOST_VARIABLES};

use clauses::CnfFault;
use gates_builder::Builder;

// So many free nodes.
fn add_block(builder: &mut Builder, label: u32, size: u32) -> Result<(), CnfFault>
    ensures { Frees builder.old builder.new (block label size) result }
{
    for bit in 0..size {
        builder.free(label, bit)?;
    }
    Ok(())
}

// So many blocks of one size.
fn add_blocks(builder: &mut Builder, label: u32, size: u32, count: u32) -> Result<(), CnfFault>
    requires { label + count < 2 ^ 32 }
    ensures { Frees builder.old builder.new (flat_map (λ place. block (label + place) size) (range_with_len 0 count))
        result }
{
    for place in 0..count {
        add_block(builder, label + place, size)?;
    }
    Ok(())
}

/// The bits of all places, where a place has so many and a run so many valuations.
pub(crate) fn add_places(builder: &mut Builder, bits: u32, last: u32) -> Result<(), CnfFault>
    requires { last < MOST_VARIABLES }
    ensures { Frees builder.old builder.new (nodes_of_places bits last) result }
{
    add_blocks(builder, last + 1, bits, last + 2)?;
    add_block(builder, last + 1 + (last + 2), last)
}
