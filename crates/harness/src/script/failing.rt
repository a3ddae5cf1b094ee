// Empty disks, one of which is set to fail.
use crate::script::asked::OneFails;
use device::{Device, SimDisk, Tear};
use scripts::Supply;
use std::alloc::{AllocError, Global};

/// Empty disks in memory, each of which knows its number by how many were given before it.
#[derive(Drop)]
pub(crate) struct Failing {
    asked: OneFails,
    given: u64,
}

impl Failing {
    pub(crate) fn new(asked: OneFails) -> Failing {
        Failing { asked, given: 0 }
    }
}

impl Supply<SimDisk> for Failing {
    // Any: this program promises nothing of what it gives.
    ghost gives = { λ d. Unit {0} };

    fn give(&mut self, alloc: Global) -> Result<SimDisk, AllocError> {
        let mut disk = SimDisk::new(alloc, Vec::new(alloc))?;
        if self.given == self.asked.disk {
            disk.fail(self.asked.call, Tear::Fill(self.asked.byte));
        }
        self.given = self.given.saturating_add(1);
        Ok(disk)
    }
}
