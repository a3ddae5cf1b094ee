// What the words gave a command.
ghost use Rattle.std.specs.Prelude.{◌≡◌, ◌≤◌, ◌↔◌, IfSome, IsTrue, Some, codes};
ghost use Rattle.clap.specs.Words.{first_value, found_of};
ghost use Rattle.settings.specs.Options.{MayTell, Tells};
ghost use Rattle.settings.specs.declared.limits.TheConstants.{MAX_SHARDS, MAX_STORE};

use crate::limits::{MAX_SHARDS, MAX_STORE};
use clap::ArgMatches;
use tuples::Shards;

/// A store in files.
#[derive(Clone, Copy)]
pub(crate) struct StoreGiven {
    pub(crate) store: u64,
    pub(crate) shards: Shards,
    ghost fits: { store ≤ MAX_STORE },
}

/// The store, if its id and its number of shards are within their ranges.
pub(crate) fn store_in(matches: &ArgMatches) -> Option<StoreGiven>
    ensures store { IfSome result (λ s. Tells (first_value (found_of matches.now) (codes "store")) 0 MAX_STORE s.store) }
    ensures shards { IfSome result (λ s. Tells (first_value (found_of matches.now) (codes "shards")) 1 MAX_SHARDS s.shards) }
{
    let store = number_in(matches, "store", 0, MAX_STORE)?;
    let shards = number_in(matches, "shards", 1, MAX_SHARDS)?;
    Some(StoreGiven {
        store,
        shards: Shards::of(shards as u8),
    })
}

/// The number of an option, if it is from `least` to `most`.
pub(crate) fn number_in(matches: &ArgMatches, name: &str, least: u64, most: u64) -> Option<u64>
    ensures number { IfSome result (λ n. Tells (first_value (found_of matches.now) name.now) least most n) }
    ensures least { IfSome result (λ n. least ≤ n) }
    ensures most { IfSome result (λ n. n ≤ most) }
{
    let text = matches.get_str(name)?;
    match text.parse::<u64>() {
        Ok(number) if least <= number && number <= most => Some(number),
        _ => None,
    }
}

/// The number of an option that may be missing, if it is from `least` to `most`.
pub(crate) fn number_if_any(
    matches: &ArgMatches,
    name: &str,
    least: u64,
    most: u64,
) -> Option<Option<u64>>
    ensures { IfSome result (MayTell (first_value (found_of matches.now) name.now) least most) }
{
    if matches.get_str(name).is_none() {
        return Some(None);
    }
    match number_in(matches, name, least, most) {
        Some(number) => Some(Some(number)),
        None => None,
    }
}

/// Whether an option without a value was given.
pub(crate) fn is_given(matches: &ArgMatches, name: &str) -> bool
    ensures { IsTrue result ↔ (first_value (found_of matches.now) name.now ≡ Some (codes "true")) }
{
    match matches.get_str(name) {
        Some(text) => text == "true",
        None => false,
    }
}
