ghost use Rattle.std.specs.Prelude.{◌<◌};

use psl_base::{Failed, MemShelf, MemSink, Shelf, Sink};

/// A shelf of which each call gives or takes a few bytes at the most.
#[derive(Drop)]
pub struct Pieces {
    pub shelf: MemShelf,
    pub most: usize,
    ghost some: { 0 < most },
}

impl Shelf for Pieces {
    ghost use Rattle.psl_base.specs.MemShelfState.{shelf_state};

    ghost state = { λ pieces. shelf_state pieces.shelf };

    fn select(&mut self, name: &str) -> Result<(), Failed> {
        self.shelf.select(name)
    }

    fn read(&mut self, into: &mut [u8]) -> Result<usize, Failed> {
        let most = if self.most < into.len() {
            self.most
        } else {
            into.len()
        };
        self.shelf.read(&mut into[..most])
    }

    fn create(&mut self, name: &str) -> Result<(), Failed> {
        self.shelf.create(name)
    }

    fn append(&mut self, bytes: &[u8]) -> Result<usize, Failed> {
        let most = if self.most < bytes.len() {
            self.most
        } else {
            bytes.len()
        };
        self.shelf.append(&bytes[..most])
    }
}

/// A sink of which each call takes a few bytes at the most.
#[derive(Drop)]
pub struct PieceSink {
    pub sink: MemSink,
    pub most: usize,
    ghost some: { 0 < most },
}

impl Sink for PieceSink {
    ghost use Rattle.psl_base.specs.Memory.{sink_state};

    ghost state = { λ pieces. sink_state pieces.sink };

    fn put(&mut self, bytes: &[u8]) -> Result<usize, Failed> {
        let most = if self.most < bytes.len() {
            self.most
        } else {
            bytes.len()
        };
        self.sink.put(&bytes[..most])
    }
}
