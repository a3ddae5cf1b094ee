// The lowest of the first versions of several lists.
ghost use Rattle.std.specs.Prelude.{◌≡◌, ◌<◌, ◌∷◌, [], get_or, length, MatchOption};
ghost use Rattle.reshard.specs.Merging.{is_lower as stands_lower, merged, version_at};
ghost use Rattle.reshard.specs.Picking.{Picks};

use crate::own::{Head, Own, is_lower};

// Whether the list at one index, if there is one, has a lower first version than the list at the other.
fn is_lower_at(owns: &[Own<'_>], one: usize, other: usize) -> bool
    requires { other < length owns.now }
    ensures { result ≡ stands_lower (get_or owns.now one []) (get_or owns.now other []) }
{
    match owns.get(one) {
        Some(own) => is_lower(own, &owns[other]),
        None => false,
    }
}

// The index of the list whose first version is the lowest.
fn least(owns: &[Own<'_>]) -> usize
    ensures { Picks owns.now result }
{
    let mut index = owns.len();
    let mut least = index;
    while index > 0 {
        index -= 1;
        if !is_lower_at(owns, least, index) {
            least = index;
        }
    }
    least
}

/// The lowest version of all that are left; its list moves past it.
pub(crate) fn next<'a>(owns: &mut [Own<'a>]) -> Option<Head<'a>>
    ensures { MatchOption result (merged owns.old ≡ []) (λ h. merged owns.old ≡ version_at h ∷ merged owns.new) }
{
    let least = least(owns);
    if least >= owns.len() {
        return None;
    }
    owns[least].next()
}
