// What a play found, a line each.
use crate::opening::FAILED;
use crate::page::Page;
use std::alloc::Global;
use std::io::{self, Write};

/// What was found to be so or not.
#[derive(Drop)]
pub(crate) struct Findings {
    page: Page,
    is_wrong: bool,
}

impl Findings {
    pub(crate) fn new(alloc: Global) -> Findings {
        Findings {
            page: Page::new(alloc),
            is_wrong: false,
        }
    }

    /// A line of what has to be so.
    pub(crate) fn find(&mut self, is_so: bool, what: &str) {
        if !is_so {
            self.is_wrong = true;
            self.page.push(b"wrong: ");
        }
        self.page.push(what.as_bytes());
        self.page.push(b"\n");
    }

    /// Prints all lines. Returns the status: 0 if all is so.
    pub(crate) fn print<R: Print>(&self, rt: &R) -> u8 {
        let printed = io::writer(rt).write_all(self.page.bytes());
        if printed.is_err() || self.is_wrong || self.page.is_torn() {
            return FAILED;
        }
        0
    }
}
