//! What the program prints.

use std::alloc::Global;
use std::cell::Cell;

/// Prints the name of each call once it has been made.
#[derive(Drop)]
pub(crate) struct Report<'a> {
    rt: &'a HostRuntime,
    // Each line was printed until now, and nothing was refused for want of memory.
    is_whole: Cell<bool>,
}

impl<'a> Report<'a> {
    /// A report to standard output, of which nothing was printed yet. It takes no memory.
    pub(crate) fn new(rt: &'a HostRuntime) -> Report<'a> {
        Report {
            rt,
            is_whole: Cell::new(true),
        }
    }

    /// What gives memory to those that take some.
    pub(crate) fn alloc(&self) -> Global {
        self.rt.alloc()
    }

    /// What was asked for until now is no call's that comes next.
    pub(crate) fn ready(&self) {
        self.print(".");
    }

    /// Calls of this name have been made since the last line, and answered as they should, or not.
    pub(crate) fn made(&self, name: &str, is_so: bool) {
        self.print(name);
        if !is_so {
            self.print("it answered something else");
        }
    }

    /// There was no memory for what stands before the calls.
    pub(crate) fn lacks_memory(&self) {
        self.is_whole.set(false);
    }

    fn print(&self, line: &str) {
        if self.rt.println(line).is_err() {
            self.is_whole.set(false);
        }
    }

    /// Whether each line was printed, and there was memory.
    pub(crate) fn is_whole(&self) -> bool {
        self.is_whole.get()
    }
}
