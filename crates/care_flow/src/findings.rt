// What became of the writes that were in doubt at a shard.
ghost use Rattle.std.specs.Prelude.{◌≡◌, ◌≤◌, ◌++◌, ◌∷◌, [], Some, IfOk, length, map, take};
ghost use Rattle.std.specs.Vec.{vec_capacity, vec_len};
ghost use Rattle.care_flow.specs.Ends.{id_of, next_of, resolved_value};

use crate::end::Resolved;
use std::alloc::{AllocError, Global};
use tuples::WriteId;

/// The writes that were in doubt, and what was found of the first of them, with room for all.
#[derive(Drop)]
pub(crate) struct Findings {
    pub(crate) doubts: Vec<WriteId>,
    pub(crate) found: Vec<Resolved>,
    ghost room: { vec_len doubts ≤ vec_capacity found },
    ghost so_far: { map id_of found.items ≡ take (length found.items) doubts.items },
}

impl Findings {
    /// Nothing of these yet.
    pub(crate) fn new(alloc: Global, doubts: Vec<WriteId>) -> Result<Findings, AllocError>
        ensures { IfOk result (λ f. (f.doubts.items ≡ doubts.items) × (f.found.items ≡ [])) }
    {
        let found = Vec::with_capacity(alloc, doubts.len())?;
        Ok(Findings { doubts, found })
    }

    /// No write is known to be in doubt.
    pub(crate) fn none(alloc: Global) -> Findings
        ensures { (result.doubts.items ≡ []) × (result.found.items ≡ []) }
    {
        Findings {
            doubts: Vec::new(alloc),
            found: Vec::new(alloc),
        }
    }

    /// The first of which nothing was found.
    pub(crate) fn next(&self) -> Option<WriteId>
        ensures { result ≡ next_of self.now.doubts.items self.now.found.items }
    {
        self.doubts.get(self.found.len()).copied()
    }

    /// This was found of it.
    pub(crate) fn note(&mut self, resolved: Resolved)
        requires { next_of self.old.doubts.items self.old.found.items ≡ Some (id_of resolved) }
        ensures doubts { self.new.doubts ≡ self.old.doubts }
        ensures found { self.new.found.items ≡ self.old.found.items ++ resolved ∷ [] }
        ensures values { map resolved_value self.new.found.items ≡ map resolved_value self.old.found.items ++ resolved_value resolved ∷ [] }
    {
        self.found.push_reserved(resolved);
    }
}
