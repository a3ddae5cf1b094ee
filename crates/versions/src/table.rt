// A table of tuples, each with its versions, and the index by user of its tuples.
ghost use Rattle.std.specs.Prelude.{◌≡◌, ◌++◌, ◌∷◌, [], false, not, List, None, Some, filter, is_some, length, take, ◌-◌, if◌then◌else◌, IfOk, OnOk, OnErr, MatchOption};
ghost use Rattle.std.specs.Ordering.{eq_by_cmp};
ghost use Rattle.tuples.specs.ByUser.{by_user_cmp};
ghost use Rattle.tuples.specs.Order.{tuple_eq};
ghost use Rattle.tuples.specs.Versions.{collected};
ghost use Rattle.tuples.specs.declared.version.Version.{Version as AnyVersion};
ghost use Rattle.versions.specs.Alike.{AreAlike, of_tuple};
ghost use Rattle.versions.specs.Index.{Forgets, HasSame, IsIndex};
ghost use Rattle.versions.specs.Kept.{lent_rows};
ghost use Rattle.versions.specs.Rows.{IsTable, found, listed, rows_in, rows_left, versions_of};
ghost use Rattle.versions.specs.declared.history.Row.{Row as AnyRow};

use crate::history::Row;
use crate::rows::{Rows, RowsRef};
use std::alloc::{AllocError, Global};
use std::collections::{BTreeMap, BTreeSet};
use tuples::{Packed, PackedByUser, Tuple};

/// Adds a version of a tuple. If memory is refused, nothing has changed.
pub(crate) fn add(
    table: &mut BTreeMap<Packed, Rows>,
    users: &mut BTreeSet<PackedByUser>,
    alloc: Global,
    tuple: &Tuple,
    row: Row,
) -> Result<(), AllocError>
    requires table { IsTable table.old.entries }
    requires index { IsIndex users.old.keys table.old.entries }
    ensures table { IsTable table.new.entries }
    ensures index { IsIndex users.new.keys table.new.entries }
    ensures ok { OnOk result (AreAlike (listed table.new.entries) (listed table.old.entries ++ versions_of tuple.now (row ∷ []))) }
    ensures err { OnErr result (listed table.new.entries ≡ listed table.old.entries) }
{
    let key = Packed::of(alloc, tuple)?;
    if let Some(own) = table.get_mut(&key) {
        own.push(alloc, row)?;
        return Ok(());
    }
    insert(table, users, alloc, tuple, key, row)
}

fn insert(
    table: &mut BTreeMap<Packed, Rows>,
    users: &mut BTreeSet<PackedByUser>,
    alloc: Global,
    tuple: &Tuple,
    key: Packed,
    row: Row,
) -> Result<(), AllocError>
    requires table { IsTable table.old.entries }
    requires index { IsIndex users.old.keys table.old.entries }
    requires key { key ≡ tuple.now }
    requires new { found tuple.now table.old.entries ≡ None }
    ensures table { IsTable table.new.entries }
    ensures index { IsIndex users.new.keys table.new.entries }
    ensures ok { OnOk result (AreAlike (listed table.new.entries) (listed table.old.entries ++ versions_of tuple.now (row ∷ []))) }
    ensures err { OnErr result (listed table.new.entries ≡ listed table.old.entries) }
{
    tuple.keeps_grammar();
    let named = PackedByUser::of(alloc, tuple)?;
    users.insert(named)?;
    let own = Rows::of(row);
    match table.insert(key, own) {
        Ok(_) => Ok(()),
        Err(_) => {
            forget(users, alloc, tuple);
            Err(AllocError)
        }
    }
}

pub(crate) fn pack(alloc: Global, tuple: Tuple) -> Result<Packed, AllocError>
    ensures { IfOk result (λ packed. packed ≡ tuple) }
{
    Packed::of(alloc, &tuple)
}

/// The versions of the tuple, in the order in which they were applied.
pub(crate) fn rows_of<'a>(
    table: &'a BTreeMap<Packed, Rows>,
    alloc: Global,
    tuple: &Tuple,
) -> RowsRef<'a>
    requires { IsTable table.now.entries }
    ensures rows { lent_rows result ≡ rows_in (found tuple.now table.now.entries) }
    ensures versions { versions_of tuple.now (lent_rows result) ≡ of_tuple tuple.now (listed table.now.entries) }
{
    match find(table, alloc, tuple) {
        Some(rows) => rows.lent(),
        None => RowsRef::List(&[]),
    }
}

fn find<'a>(table: &'a BTreeMap<Packed, Rows>, alloc: Global, tuple: &Tuple) -> Option<&'a Rows>
    ensures { MatchOption result (found tuple.now table.now.entries ≡ None) (λ rows. found tuple.now table.now.entries ≡ Some rows.now) }
{
    match Packed::of(alloc, tuple) {
        Ok(key) => table.get(&key),
        // Memory is refused for a long key, and to look at all entries takes none.
        Err(_) => search(table, tuple),
    }
}

fn search<'a>(table: &'a BTreeMap<Packed, Rows>, tuple: &Tuple) -> Option<&'a Rows>
    ensures { MatchOption result (found tuple.now table.now.entries ≡ None) (λ rows. found tuple.now table.now.entries ≡ Some rows.now) }
{
    for (key, rows) in table {
        if key.is(tuple) {
            return Some(rows);
        }
    }
    None
}

/// Takes back the version of a tuple that was added last.
pub(crate) fn take_back(
    table: &mut BTreeMap<Packed, Rows>,
    users: &mut BTreeSet<PackedByUser>,
    alloc: Global,
    tuple: &Tuple,
)
    requires table { IsTable table.old.entries }
    requires index { IsIndex users.old.keys table.old.entries }
    ensures table { IsTable table.new.entries }
    ensures index { IsIndex users.new.keys table.new.entries }
    ensures versions { (before : List AnyVersion) (row : AnyRow) → AreAlike (listed table.old.entries) (before ++ versions_of tuple.now (row ∷ [])) → AreAlike (listed table.new.entries) before }
{
    match Packed::of(alloc, tuple) {
        Ok(key) => {
            shorten(table, tuple, &key);
            remove_empty(table, users, alloc, tuple, &key);
        }
        // Memory is refused for a long key. An entry without versions stays until the next collection.
        Err(_) => shorten_by_search(table, tuple),
    }
}

fn shorten(table: &mut BTreeMap<Packed, Rows>, tuple: &Tuple, key: &Packed)
    requires table { IsTable table.old.entries }
    requires key { key.now ≡ tuple.now }
    ensures table { IsTable table.new.entries }
    ensures entries { HasSame table.old.entries table.new.entries }
    ensures versions { (before : List AnyVersion) (row : AnyRow) → AreAlike (listed table.old.entries) (before ++ versions_of tuple.now (row ∷ [])) → AreAlike (listed table.new.entries) before }
{
    let Some(own) = table.get_mut(key) else {
        return;
    };
    own.pop();
}

fn shorten_by_search(table: &mut BTreeMap<Packed, Rows>, tuple: &Tuple)
    requires table { IsTable table.old.entries }
    ensures table { IsTable table.new.entries }
    ensures entries { HasSame table.old.entries table.new.entries }
    ensures versions { (before : List AnyVersion) (row : AnyRow) → AreAlike (listed table.old.entries) (before ++ versions_of tuple.now (row ∷ [])) → AreAlike (listed table.new.entries) before }
{
    table.retain(|key, rows| {
        shorten_own(key, rows, tuple);
        true
    });
}

fn shorten_own(key: &Packed, rows: &mut Rows, tuple: &Tuple)
    ensures { rows.new ≡ (if tuple_eq key.now tuple.now then take (length rows.old - 1) rows.old else rows.old) }
{
    if key.is(tuple) {
        rows.pop();
    }
}

// A tuple without versions has no entry.
fn remove_empty(
    table: &mut BTreeMap<Packed, Rows>,
    users: &mut BTreeSet<PackedByUser>,
    alloc: Global,
    tuple: &Tuple,
    key: &Packed,
)
    requires table { IsTable table.old.entries }
    requires index { IsIndex users.old.keys table.old.entries }
    requires key { key.now ≡ tuple.now }
    ensures table { IsTable table.new.entries }
    ensures index { IsIndex users.new.keys table.new.entries }
    ensures versions { listed table.new.entries ≡ listed table.old.entries }
{
    if has_rows(table, key) {
        return;
    }
    if table.remove(key).is_some() {
        forget(users, alloc, tuple);
    }
}

fn has_rows(table: &BTreeMap<Packed, Rows>, key: &Packed) -> bool
    ensures { result ≡ false → rows_in (found key.now table.now.entries) ≡ [] }
{
    match table.get(key) {
        Some(rows) => !rows.is_empty(),
        None => false,
    }
}

// Takes the tuple out of the index.
fn forget(users: &mut BTreeSet<PackedByUser>, alloc: Global, tuple: &Tuple)
    ensures { Forgets tuple.now users.old.keys users.new.keys }
{
    match PackedByUser::of(alloc, tuple) {
        Ok(named) => {
            users.remove(&named);
        }
        // Memory is refused for a long key, and to look at all keys takes none.
        Err(_) => leave_out(users, tuple),
    }
}

fn leave_out(users: &mut BTreeSet<PackedByUser>, tuple: &Tuple)
    ensures { users.new.keys ≡ filter (λ t. not (eq_by_cmp by_user_cmp t tuple.now)) users.old.keys }
{
    users.retain(|named| !named.is(tuple));
}

/// Forgets what lies under the horizon.
pub(crate) fn collect(
    table: &mut BTreeMap<Packed, Rows>,
    users: &mut BTreeSet<PackedByUser>,
    alloc: Global,
    horizon: u64,
)
    requires table { IsTable table.old.entries }
    requires index { IsIndex users.old.keys table.old.entries }
    ensures table { IsTable table.new.entries }
    ensures index { IsIndex users.new.keys table.new.entries }
    ensures versions { AreAlike (listed table.new.entries) (collected horizon (listed table.old.entries)) }
{
    let count = table.len();
    table.retain(|_, rows| has_left(rows, horizon));
    if table.len() < count {
        forget_gone(users, alloc, table);
    }
}

// Leaves in the index what has an entry.
fn forget_gone(users: &mut BTreeSet<PackedByUser>, alloc: Global, table: &BTreeMap<Packed, Rows>)
    ensures { users.new.keys ≡ filter (λ t. is_some (found t table.now.entries)) users.old.keys }
{
    users.retain(|named| has_entry(table, alloc, named));
}

fn has_entry(table: &BTreeMap<Packed, Rows>, alloc: Global, named: &PackedByUser) -> bool
    ensures { result ≡ is_some (found named.now table.now.entries) }
{
    match pack_again(alloc, named) {
        Ok(key) => table.contains_key(&key),
        // Memory is refused for a long key, and to look at all entries takes none.
        Err(_) => is_among(table, named),
    }
}

fn pack_again(alloc: Global, named: &PackedByUser) -> Result<Packed, AllocError>
    ensures { IfOk result (λ packed. packed ≡ named.now) }
{
    pack(alloc, named.tuple(alloc)?)
}

fn is_among(table: &BTreeMap<Packed, Rows>, named: &PackedByUser) -> bool
    ensures { result ≡ is_some (found named.now table.now.entries) }
{
    for (key, _rows) in table {
        if key.is_same(named) {
            return true;
        }
    }
    false
}

// Whether versions of a tuple are left under the horizon, once the others are forgotten.
fn has_left(rows: &mut Rows, horizon: u64) -> bool
    ensures left { rows.new ≡ rows_left horizon rows.old }
    ensures none { result ≡ false → rows.new ≡ [] }
{
    rows.collect(horizon);
    !rows.is_empty()
}
