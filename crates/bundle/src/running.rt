ghost use Rattle.std.specs.Prelude.{◌≡◌, IfOk};
ghost use Rattle.lines.specs.Bytes.{lines_of};
ghost use Rattle.bundle.specs.Runs.{Ran, no_lines};

use crate::printing::print;
use crate::reply::respond;
use crate::tally::Tally;
use history::History;
use lines::{Lines, fields, is_passed_over, trim};
use std::alloc::Global;
use std::io;
use std::io::Write;

/// Replies to each line of a bundle over the history, and writes the replies.
pub fn run<H: History, W: Write>(
    heap: Global,
    history: &mut H,
    text: &[u8],
    out: &mut W,
) -> io::Result<Tally>
    requires { H.Reader.whole history.old }
    ensures whole { H.Reader.whole history.new }
    ensures answer { IfOk result (λ t. Ran (H.Reader.room history.old) (H.Reader.commits history.old) no_lines (lines_of text.now) (H.Reader.commits history.new) t) }
{
    let mut tally = Tally::default();
    for line in Lines::new(text) {
        let line = trim(line);
        if is_passed_over(line) {
            continue;
        }
        let fields = fields(heap, line)?;
        let reply = respond(heap, history, fields.as_slice())?;
        tally.count(&reply);
        print(out, line, fields.as_slice(), &reply)?;
    }
    writeln!(out, "{tally}")?;
    Ok(tally)
}
