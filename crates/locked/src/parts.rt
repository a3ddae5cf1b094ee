// What a store is opened from, beside its devices.
ghost use Rattle.std.specs.Prelude.{◌≡◌, [], IfOk};

use crate::tending::new_bell;
use crossbeam_utils::sync::{Parker, Unparker};
use flights::Launches;
use published::{LogPass, Published};
use sides::Attempts;
use std::alloc::{AllocError, Global};
use tuples::Entry;

/// What a store is opened from, beside its devices: who tends it is woken by the bell; its list is published by the words, which the log alone moves; the
/// attempts name the decisions that its coordinator stages, and the launches the flights of its nodes, so that a flush holds no lock while devices sync.
#[derive(Drop)]
pub struct Parts {
    pub bell: Unparker,
    pub words: Published<Entry>,
    pub log: LogPass<Entry>,
    pub attempts: Attempts,
    pub launches: Launches,
}

impl Parts {
    /// Those of a new store, and what sleeps until its bell rings.
    pub fn new(alloc: Global) -> Result<(Parker, Parts), AllocError>
        ensures own { IfOk result (λ made. made.1.log.table ≡ made.1.words) }
        ensures empty { IfOk result (λ made. (made.1.log.seen ≡ []) × (made.1.log.horizon ≡ 0)) }
    {
        let attempts = Attempts::new(alloc)?;
        let launches = Launches::new(alloc)?;
        let (parker, bell) = new_bell(alloc)?;
        let (words, log) = Published::new(alloc)?;
        let parts = Parts {
            bell,
            words,
            log,
            attempts,
            launches,
        };
        Ok((parker, parts))
    }
}
