//! What wakes a receiver that sleeps.
use std::sync::Wait;
use std::sync::atomic::{AtomicU64, Ordering};
use std::thread::Parker;
use std::time::{Clock, Duration};

/// A receiver says that it is about to sleep, looks once more and sleeps. A sender wakes it only if it has said so.
#[derive(Drop)]
pub(crate) struct Bell {
    asleep: AtomicU64,
    parker: Parker,
}

impl Bell {
    pub(crate) fn new() -> Bell {
        Bell {
            asleep: AtomicU64::new(0),
            parker: Parker::new(),
        }
    }

    /// Wakes the receiver if it sleeps, or is about to.
    pub(crate) fn ring(&self) {
        if self.asleep.swap(0, Ordering::SeqCst) != 0 {
            self.parker.unpark();
        }
    }

    /// From now on a ring wakes: the receiver looks once more, and then sleeps.
    pub(crate) fn tire(&self) {
        self.asleep.store(1, Ordering::SeqCst);
    }

    /// The receiver found something, and doesn't sleep.
    pub(crate) fn rouse(&self) {
        self.asleep.store(0, Ordering::SeqCst);
    }

    /// Sleeps until a ring, or for so long at most.
    pub(crate) fn sleep<R: Wait + Clock>(&self, rt: &R, most: Duration) {
        self.parker.park_timeout(rt, most);
        self.rouse();
    }
}
