// What a run needs while it goes on.
ghost use Rattle.std.specs.Prelude.{◌≡◌, [], IfOk};
ghost use Rattle.line_io.specs.Blocks.{unread};

use crate::refusals::Refusals;
use line_io::{Block, Line};
use std::alloc::{AllocError, Global};

/// What was read, the line that is answered, and its answer.
#[derive(Drop)]
pub(crate) struct Room {
    pub block: Block,
    pub line: Line,
    pub text: Vec<u8>,
    pub refusals: Refusals,
}

impl Room {
    pub(crate) fn new(alloc: Global) -> Result<Room, AllocError>
        ensures { IfOk result (λ room. unread room.block ≡ []) }
    {
        Ok(Room {
            block: Block::new(alloc)?,
            line: Line::new(alloc),
            text: Vec::new(alloc),
            refusals: Refusals::new(alloc)?,
        })
    }
}
