// Netlists from text.
use blif_reader::read_blif;
use netlist::Netlist;
use psl_base::{Bytes, File, Files, MemShelf, Numbers};
use std::alloc::Global;
use std::test::Fail;

/// Signals 0 and 1, q and n: a latch q that is 0 at first, and is the other value at each next place.
pub(crate) const TOGGLE: &str = ".outputs q\n.latch n q 0\n.names q n\n0 1\n.end\n";

/// Signal 0: a latch that keeps the value that it has at first, which is free.
pub(crate) const KEPT: &str = ".latch q q 2\n.end\n";

/// Signals 0 and 1, l and h: the low and the high bit of a counter, whose values are 0, 1, 2, 0 and so on. After a 3 comes
/// a 0 too. Signals 2 and 3, x and y, are the bits of the next value.
pub(crate) const THREE: &str =
    ".outputs l h\n.latch x l 0\n.latch y h 0\n.names l h x\n00 1\n.names l h y\n10 1\n.end\n";

/// The netlist of a text in the Berkeley Logic Interchange Format.
pub(crate) fn netlist(alloc: Global, text: &str) -> Result<Netlist, Fail> {
    let mut files = Files::new(alloc);
    files.push(File {
        name: Bytes::from_slice(alloc, b"n.blif")?,
        content: Bytes::from_slice(alloc, text.as_bytes())?,
    })?;
    let mut shelf = MemShelf::new(alloc, &files, 0, 0, &Numbers::new(alloc))?;
    let netlist = read_blif(alloc, &mut shelf, "n.blif")
        .ok()
        .ok_or("a fault")?;
    Ok(netlist)
}
