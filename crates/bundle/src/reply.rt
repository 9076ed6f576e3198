ghost use Rattle.lines.specs.Bytes.{texts};
ghost use Rattle.orders.specs.Lines.{line};
ghost use Rattle.bundle.specs.Replies.{Replied};

use answering::{Answer, carry_out};
use history::History;
use orders::{Fault, Malformed, parse};
use std::alloc::{AllocError, Global};

/// What a line is replied to with: the answer to what it asks for, or why it asks for nothing.
pub(crate) type Reply = Result<Answer, Malformed>;

/// Replies to one line, given by its fields. A malformed line changes nothing.
pub(crate) fn respond<H: History>(
    heap: Global,
    history: &mut H,
    fields: &[&[u8]],
) -> Result<Reply, AllocError>
    requires { H.Reader.whole history.old }
    ensures answer { Replied H.Reader history.old (line (texts fields.now)) result history.new }
{
    match parse(heap, fields) {
        Ok(order) => Ok(Ok(carry_out(heap, history, order)?)),
        Err(Fault::Line(malformed)) => Ok(Err(malformed)),
        Err(Fault::Memory(error)) => Err(error),
    }
}
