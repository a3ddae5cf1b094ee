// The place of an answer.
ghost use Rattle.answer_flow.specs.Finding.{Finds};

use decisions::Heads;
use tuples::{Freshness, Refusal};

/// What heads tell of the place that is wanted.
#[derive(Clone, Copy)]
pub(crate) enum Found {
    /// It is this one.
    At(u64),
    /// It is not kept yet.
    Later,
    Refused(Refusal),
}

/// What the heads tell. A place above the log is refused before one below the horizon.
pub(crate) fn find(freshness: Freshness, heads: &Heads) -> Found
    ensures { Finds freshness heads.now result }
{
    match freshness {
        Freshness::Latest => Found::At(heads.kept()),
        Freshness::AtLeast(place) => find_at_least(place, heads),
        Freshness::Exact(place) => find_exact(place, heads),
    }
}

fn find_at_least(place: u64, heads: &Heads) -> Found
    ensures { Finds (Freshness.AtLeast place) heads.now result }
{
    if place > heads.length() {
        return Found::Refused(Refusal::Future);
    }
    if place > heads.kept() {
        return Found::Later;
    }
    // A later place than the one below the horizon is as good.
    Found::At(heads.kept())
}

fn find_exact(place: u64, heads: &Heads) -> Found
    ensures { Finds (Freshness.Exact place) heads.now result }
{
    if place > heads.length() {
        return Found::Refused(Refusal::Future);
    }
    if place < heads.horizon() {
        return Found::Refused(Refusal::Collected);
    }
    if place > heads.kept() {
        return Found::Later;
    }
    Found::At(place)
}
