//! Directories that are replaced while a device works.
use std::cell::Cell;

/// A directory that a link replaces.
#[derive(Clone, Copy, Debug, PartialEq, Eq)]
pub struct Exchange {
    pub dir: &'static str,
    /// The path of the directory after that.
    pub aside: &'static str,
    /// The target of the link.
    pub target: &'static str,
}

/// The exchange that is still to be made. All copies of a runtime share it.
#[derive(Drop)]
pub struct Exchanges {
    next: Cell<Option<Exchange>>,
    // The number of calls by a path that are made before it.
    before: Cell<u64>,
}

impl Exchanges {
    pub(crate) fn new() -> Exchanges {
        Exchanges {
            next: Cell::new(None),
            before: Cell::new(0),
        }
    }

    /// After this number of further calls by a path, a link replaces this directory.
    pub fn make_after(&self, calls: u64, exchange: Exchange) {
        self.before.set(calls);
        self.next.set(Some(exchange));
    }

    /// No directory is replaced any more. Returns whether the one that was to be replaced was.
    pub fn end(&self) -> bool {
        let is_made = self.next.get().is_none();
        self.next.set(None);
        is_made
    }

    // Counts a call by a path, and returns the exchange that is to be made before it.
    pub(crate) fn pass(&self) -> Option<Exchange> {
        let exchange = self.next.get()?;
        let before = self.before.get();
        if before > 0 {
            self.before.set(before - 1);
            return None;
        }
        self.next.set(None);
        Some(exchange)
    }
}
