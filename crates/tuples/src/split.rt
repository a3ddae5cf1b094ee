// Texts that are cut at a mark.
ghost use Rattle.std.specs.Prelude.{◌≡◌, ◌==◌, MatchOption};
ghost use Rattle.std.specs.List.{position};
ghost use Rattle.tuples.specs.Parsing.{IsCut, Lacks};

/// What stands before and after the first such byte of the text, or `None` if it has none.
pub(crate) fn split_first(text: &[u8], mark: u8) -> Option<(&[u8], &[u8])>
    ensures { MatchOption result (Lacks mark text.now) (λ parts. IsCut mark text.now parts.0.now parts.1.now) }
{
    match place_of(text, mark) {
        None => None,
        Some(at) => Some((&text[..at], &text[at + 1..])),
    }
}

fn place_of(text: &[u8], mark: u8) -> Option<usize>
    ensures { result ≡ position (λ b. b == mark) text.now }
{
    text.iter().position(|byte| *byte == mark)
}
