use std::sync::atomic::{AtomicBool, Ordering};

/// Whether a run is to end. It is said once, by whichever worker sees it first, and stays.
#[derive(Drop)]
pub struct Ending {
    is_set: AtomicBool,
}

impl Ending {
    /// The run goes on.
    pub fn new() -> Ending {
        Ending {
            is_set: AtomicBool::new(false),
        }
    }

    /// The run is to end.
    pub fn set(&self) {
        self.is_set.store(true, Ordering::SeqCst);
    }

    /// Whether it is to end.
    pub fn is_set(&self) -> bool {
        self.is_set.load(Ordering::SeqCst)
    }
}
