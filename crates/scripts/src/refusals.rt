// What is printed if a line is too long, or memory is refused: made first, so that it needs no memory then.
ghost use Rattle.std.specs.Prelude.{◌≡◌, IfOk};
ghost use Rattle.script_text.specs.PrintedTexts.{refusal_line};
ghost use Rattle.refusal.specs.declared.refusal.Refusal.TheVariants.{NoMemory, TooLarge};

use script_text::Printed;
use std::alloc::{AllocError, Global};
use tuples::Refusal;

// Room for the text of a refusal.
const ROOM: usize = 32;

#[derive(Drop)]
pub(crate) struct Refusals {
    pub too_large: Vec<u8>,
    pub no_memory: Vec<u8>,
    ghost large: { too_large.items ≡ refusal_line TooLarge },
    ghost memory: { no_memory.items ≡ refusal_line NoMemory },
}

impl Refusals {
    pub(crate) fn new(alloc: Global) -> Result<Refusals, AllocError> {
        let too_large = text_of(alloc, Refusal::TooLarge)?;
        let no_memory = text_of(alloc, Refusal::NoMemory)?;
        Ok(Refusals {
            too_large,
            no_memory,
        })
    }
}

// It names no place, so it is the same at every store.
fn text_of(alloc: Global, refusal: Refusal) -> Result<Vec<u8>, AllocError>
    ensures { IfOk result (λ text. text.items ≡ refusal_line refusal) }
{
    let mut text = Vec::with_capacity(alloc, ROOM)?;
    Printed::Refused(refusal).write_to(0, &mut text)?;
    Ok(text)
}
