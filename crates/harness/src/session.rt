// A session over a plain list of touches, which `checks/request_lines` and `checks/refused_session` run.
//
// A request that is refused changes no tuple, and each answer tells the place, the condition or the limit that was asked for. No more is kept than the touches:
// a delete changes no answer, a read finds the tuples of objects alone, and a limit counts touches.
mod listed;

use listed::Listed;
use sessions::serve_stream;
use std::alloc::Global;
use std::io::{self, Read, Write};

/// Answers the request lines of the input, until it ends; an error if the session broke off, as `serve_stream` tells it.
pub(crate) fn run<R: Read, W: Write>(
    alloc: Global,
    input: &mut R,
    output: &mut W,
) -> io::Result<()> {
    let mut listed = Listed::new(alloc);
    serve_stream(alloc, input, output, &mut listed)
}
