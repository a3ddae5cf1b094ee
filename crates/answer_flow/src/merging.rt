// Two ascending lists of rows become one.
ghost use Rattle.std.specs.Prelude.{IfOk};
ghost use Rattle.tuples.specs.Reads.{AreAscending};
ghost use Rattle.decisions.specs.Merging.{IsMerged};
ghost use Rattle.answer_flow.specs.Merges.{TakesLast};

use std::alloc::{AllocError, Global};
use tuples::Tuple;

/// The rows of both, ascending if both are. It looks at each row once.
pub(crate) fn merge(
    alloc: Global,
    mut left: Vec<Tuple>,
    mut right: Vec<Tuple>,
) -> Result<Vec<Tuple>, AllocError>
    ensures { AreAscending left.items → AreAscending right.items → IfOk result (λ merged. IsMerged left.items right.items merged.items) }
{
    let mut merged = Vec::new(alloc);
    while let Some(tuple) = take_last(&mut left, &mut right) {
        merged.push(tuple)?;
    }
    merged.reverse();
    Ok(merged)
}

// The greater of the last two.
fn take_last(left: &mut Vec<Tuple>, right: &mut Vec<Tuple>) -> Option<Tuple>
    ensures { TakesLast left.old.items right.old.items result left.new.items right.new.items }
{
    let Some(last_left) = left.last() else {
        return right.pop();
    };
    let Some(last_right) = right.last() else {
        return left.pop();
    };
    if last_left.is_before(last_right) {
        return right.pop();
    }
    if last_right.is_before(last_left) {
        return left.pop();
    }
    let same = right.pop();
    drop(same);
    left.pop()
}
