ghost use Rattle.std.specs.Prelude.{◌≡◌, None, IfSome};
ghost use Rattle.std.specs.Option.{option_map};

use crate::{Failed, Shelf};
use std::fs;
use std::io::{Read, Write};
use std::marker::Model;
use std::rt::Files;

/// The longest name of a file, in bytes. The system takes none that is longer.
const NAME_ROOM: usize = 4096;

/// A name that takes no memory of its own.
#[derive(Drop)]
struct HeldName {
    bytes: [u8; NAME_ROOM],
    length: usize,
}

impl Model for HeldName {
    ghost use Rattle.std.specs.Prelude.{◌≤◌, List, ℕ, take};
    ghost use Rattle.psl_base.specs.declared.directory.TheConstants.{NAME_ROOM};

    ghost Value = { List ℕ };

    ghost view = { λ name. take name.length name.bytes };

    ghost invariant = { λ name. name.length ≤ NAME_ROOM };
}

impl HeldName {
    /// The name, where there is room for it.
    fn new(name: &[u8]) -> Option<HeldName>
        ensures { IfSome result (λ held. held ≡ name.now) }
    {
        let length = name.len();
        if length > NAME_ROOM {
            return None;
        }
        let mut bytes = [0; NAME_ROOM];
        bytes[..length].copy_from_slice(name);
        Some(HeldName { bytes, length })
    }
}

/// A file and the name by which it was opened.
#[derive(Drop)]
struct Opened<F: Drop> {
    file: F,
    name: HeldName,
}

/// The files of the system as a shelf. It tells no content, and counts each fault: a file that is
/// not there, or whose name is too long, is one, and so is a file that takes nothing of a piece.
/// It takes no memory.
#[derive(Drop)]
pub struct DirShelf<'a, R: Files> {
    files: &'a R,
    selected: Option<Opened<R::File>>,
    cursor: u64,
    created: Option<Opened<R::File>>,
    read_faults: u64,
    write_faults: u64,
}

impl<'a, R: Files> DirShelf<'a, R> {
    /// A shelf over the files of the system, with no name selected or created and no fault so far.
    pub fn new(files: &'a R) -> DirShelf<'a, R>
        ensures { ⟦<DirShelf<'a, R> as Shelf>⟧.state result ≡ record {
          told = None;
          selected = None;
          cursor = 0;
          created = None;
          read_faults = 0;
          write_faults = 0;
        } }
    {
        DirShelf {
            files,
            selected: None,
            cursor: 0,
            created: None,
            read_faults: 0,
            write_faults: 0,
        }
    }
}

impl<R: Files> Shelf for DirShelf<'_, R> {
    ghost state = { λ shelf. record {
      told = None;
      selected = option_map (λ opened. opened.name) shelf.selected;
      cursor = shelf.cursor;
      created = option_map (λ opened. opened.name) shelf.created;
      read_faults = shelf.read_faults;
      write_faults = shelf.write_faults;
    } };

    fn select(&mut self, name: &str) -> Result<(), Failed> {
        self.selected = None;
        let (Some(held), Ok(file)) = (HeldName::new(name.as_bytes()), fs::open(self.files, name))
        else {
            self.read_faults = self.read_faults.saturating_add(1);
            return Err(Failed);
        };
        self.selected = Some(Opened { file, name: held });
        self.cursor = 0;
        Ok(())
    }

    fn read(&mut self, into: &mut [u8]) -> Result<usize, Failed> {
        let read = match &mut self.selected {
            Some(opened) => opened.file.read(into),
            None => unreachable!(),
        };
        match read {
            Ok(count) => {
                self.cursor += count as u64;
                Ok(count)
            }
            Err(_) => {
                self.read_faults = self.read_faults.saturating_add(1);
                Err(Failed)
            }
        }
    }

    fn create(&mut self, name: &str) -> Result<(), Failed> {
        self.created = None;
        let (Some(held), Ok(file)) = (HeldName::new(name.as_bytes()), fs::create(self.files, name))
        else {
            self.write_faults = self.write_faults.saturating_add(1);
            return Err(Failed);
        };
        self.selected = None;
        self.created = Some(Opened { file, name: held });
        Ok(())
    }

    fn append(&mut self, bytes: &[u8]) -> Result<usize, Failed> {
        let written = match &mut self.created {
            Some(opened) => opened.file.write(bytes),
            None => unreachable!(),
        };
        match written {
            Ok(count) if count > 0 || bytes.is_empty() => Ok(count),
            _ => {
                self.write_faults = self.write_faults.saturating_add(1);
                Err(Failed)
            }
        }
    }
}
