// The text of a dump.
ghost use Rattle.std.specs.Prelude.{◌≡◌, ◌++◌, OnOk};
ghost use Rattle.std.specs.List.{flat_map};
ghost use Rattle.json_lines.specs.Grown.{Grown};
ghost use Rattle.dumping.specs.Dumped.{dump_text, head_line, tuple_line};

use json_lines::Text;
use std::alloc::AllocError;
use tuples::Tuple;
use zookie::Zookie;

// The word `at` and the token of the place.
fn push_place(out: &mut Text<'_>, store: u64, place: u64)
    ensures { Grown out.old out.new (head_line store place) }
{
    let zookie = Zookie { store, place };
    out.push(b"at ");
    out.push(&zookie.encode());
    out.push(b"\n");
}

fn write_place(store: u64, place: u64, out: &mut Vec<u8>) -> Result<(), AllocError>
    ensures { OnOk result (out.new.items ≡ out.old.items ++ head_line store place) }
{
    let mut text = Text::behind(out);
    push_place(&mut text, store, place);
    text.end()
}

fn write_tuple(tuple: &Tuple, out: &mut Vec<u8>) -> Result<(), AllocError>
    ensures { OnOk result (out.new.items ≡ out.old.items ++ tuple_line tuple.now) }
{
    tuple.write_to(out)?;
    out.push(b'\n')?;
    Ok(())
}

/// Appends the text: the token of the place in the store with this id, and a line for each tuple. An `Err` is for lack of memory; part of the text may then be
/// appended.
pub(crate) fn write_text(
    store: u64,
    place: u64,
    tuples: &[Tuple],
    out: &mut Vec<u8>,
) -> Result<(), AllocError>
    ensures { OnOk result (out.new.items ≡ out.old.items ++ dump_text store place tuples.now) }
{
    write_place(store, place, out)?;
    write_tuples(tuples, out)
}

fn write_tuples(tuples: &[Tuple], out: &mut Vec<u8>) -> Result<(), AllocError>
    ensures { OnOk result (out.new.items ≡ out.old.items ++ flat_map tuple_line tuples.now) }
{
    for tuple in tuples {
        write_tuple(tuple, out)?;
    }
    Ok(())
}
