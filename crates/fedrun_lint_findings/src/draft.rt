//! Texts that are written for the loader. What they are is known to nobody but the loader, so they have no contract.
use std::alloc::Global;

/// A text while it is written. Where an allocation failed it is lost, which is asked once it is whole.
#[derive(Drop)]
pub(crate) struct Draft {
    bytes: Vec<u8>,
    is_lost: bool,
}

impl Draft {
    pub(crate) fn new(alloc: Global) -> Draft {
        Draft {
            bytes: Vec::new(alloc),
            is_lost: false,
        }
    }

    /// Adds a text.
    pub(crate) fn push(&mut self, text: &str) {
        self.add(text.as_bytes());
    }

    /// Adds bytes.
    pub(crate) fn add(&mut self, bytes: &[u8]) {
        if self.bytes.extend_from_slice(bytes).is_err() {
            self.is_lost = true;
        }
    }

    /// Adds another draft.
    pub(crate) fn append(&mut self, other: &Draft) {
        self.add(other.bytes.as_slice());
        self.is_lost = self.is_lost || other.is_lost;
    }

    /// Notes that something of it is lost.
    pub(crate) fn lose(&mut self) {
        self.is_lost = true;
    }

    pub(crate) fn is_lost(&self) -> bool {
        self.is_lost
    }

    pub(crate) fn as_slice(&self) -> &[u8] {
        self.bytes.as_slice()
    }
}
