//! What every layer of the product stands on: lists that contracts see as lists, places in a text, and the
//! outside world as two traits; and what readers and writers of texts share: tokens between white space,
//! decimal numbers, texts that grow, and files that are written in order.
#![tactic(auto)]

mod bytes;
mod decimals;
mod directory;
mod items;
mod mem_shelf;
mod memory;
mod outside;
mod packed;
mod place;
mod reading;
mod saving;
mod streams;
mod tokens;
mod words;
mod writing;

pub use bytes::{is_digit, is_white};
pub use decimals::{decimal, plain_decimal};
pub use directory::DirShelf;
pub use items::{Bits, Bytes, Items, NoMemory, Numbers, Text, boxed};
pub use mem_shelf::MemShelf;
pub use memory::MemSink;
pub use outside::{Failed, Shelf, Sink};
pub use packed::{File, Files};
pub use place::{FILE_LIMIT, Place, advance, place_of};
pub use reading::{ReadAllFault, read_all};
pub use saving::{Save, Saves, save_all};
pub use streams::StdSink;
pub use tokens::{Cursor, Token};
pub use words::program_words;
pub use writing::{add_bytes, add_number, put_all};
