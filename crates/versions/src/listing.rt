// The versions as a list in the order of tuples and places.
ghost use Rattle.std.specs.Prelude.{◌≡◌, ◌++◌, IfOk, OnOk};
ghost use Rattle.std.specs.List.Sorted.{IsPermutation, IsSorted};
ghost use Rattle.versions.specs.Rows.{AreRows, listed, version_cmp, versions_of};

use crate::history::Row;
use crate::rows::Rows;
use std::alloc::{AllocError, Global};
use std::cmp::Ordering;
use std::collections::BTreeMap;
use tuples::{Packed, Version};

/// Copies of the versions, by tuple and then by place.
pub(crate) fn list(
    table: &BTreeMap<Packed, Rows>,
    alloc: Global,
) -> Result<Vec<Version>, AllocError>
    ensures { IfOk result (λ v. AreRows (listed table.now.entries) v.items) }
{
    let mut versions = copies(table, alloc)?;
    sort(&mut versions)?;
    Ok(versions)
}

fn copies(table: &BTreeMap<Packed, Rows>, alloc: Global) -> Result<Vec<Version>, AllocError>
    ensures { IfOk result (λ v. v.items ≡ listed table.now.entries) }
{
    let mut versions = Vec::new(alloc);
    for (tuple, rows) in table {
        copy_rows(&mut versions, alloc, tuple, rows.lent().as_slice())?;
    }
    Ok(versions)
}

fn copy_rows(
    versions: &mut Vec<Version>,
    alloc: Global,
    tuple: &Packed,
    rows: &[Row],
) -> Result<(), AllocError>
    ensures { OnOk result (versions.new.items ≡ versions.old.items ++ versions_of tuple.now rows.now) }
{
    for row in rows {
        versions.push(row.version(alloc, tuple)?)?;
    }
    Ok(())
}

fn sort(versions: &mut Vec<Version>) -> Result<(), AllocError>
    ensures same { IsPermutation versions.old.items versions.new.items }
    ensures in_order { OnOk result (IsSorted version_cmp versions.new.items) }
{
    versions.sort_by(|a, b| compare(a, b))?;
    Ok(())
}

fn compare(a: &Version, b: &Version) -> Ordering
    ensures { result ≡ version_cmp a.now b.now }
{
    let tuples = a.change.tuple().cmp(b.change.tuple());
    tuples.then(a.place.cmp(&b.place))
}
