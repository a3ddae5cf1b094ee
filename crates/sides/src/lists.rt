// The words of a store's lists.
ghost use Rattle.std.specs.Prelude.{◌≡◌};

use crate::{Attempt, Launch, Room};
use published::Published;
use std::marker::PhantomData;
use tuples::Entry;

/// The words whose passes stand for the lists of a store: of its writes, of all decisions that its coordinator has ever staged, and of the flights of its nodes.
#[derive(Drop)]
pub struct Lists<B: Room> {
    pub writes: Published<Entry>,
    pub attempts: Published<Attempt>,
    pub launches: Published<Launch>,
    room: PhantomData<B>,
    ghost own: { (writes ≡ B.log) × (attempts ≡ B.attempts) × (launches ≡ B.launches) },
}

impl<B: Room> Lists<B> {
    /// Those of the store that the room names.
    pub fn new(
        writes: Published<Entry>,
        attempts: Published<Attempt>,
        launches: Published<Launch>,
    ) -> Lists<B>
        requires own { (writes ≡ B.log) × (attempts ≡ B.attempts) × (launches ≡ B.launches) }
    {
        Lists {
            writes,
            attempts,
            launches,
            room: PhantomData,
        }
    }
}
