use crate::reply::Reply;
use lines::nth_field;
use orders::Malformed;
use std::io;
use std::io::Write;

// How many bytes of a field a message shows.
const SHOWN: usize = 60;

/// Writes a line and the reply to it.
pub(crate) fn print<W: Write>(
    out: &mut W,
    line: &[u8],
    fields: &[&[u8]],
    reply: &Reply,
) -> io::Result<()> {
    out.write_all(line)?;
    out.write_all(b" -> ")?;
    match reply {
        Ok(answer) => write!(out, "{answer}")?,
        Err(malformed) => print_malformed(out, malformed, nth_field(fields, malformed.field))?,
    }
    out.write_all(b"\n")
}

// What was found is bytes that need not be text, so the message is written, and not a `Display` of the fault.
fn print_malformed<W: Write>(
    out: &mut W,
    malformed: &Malformed,
    found: Option<&[u8]>,
) -> io::Result<()> {
    let Malformed { field, expected } = malformed;
    write!(out, "malformed: field {field}: expected {expected}, found ")?;
    match found {
        Some(text) => print_found(out, text),
        None => out.write_all(b"nothing"),
    }
}

// A field as it is, but of a long one only the first bytes.
fn print_found<W: Write>(out: &mut W, text: &[u8]) -> io::Result<()> {
    out.write_all(b"\"")?;
    if text.len() > SHOWN {
        out.write_all(&text[0..SHOWN])?;
        out.write_all(b"...")?;
    } else {
        out.write_all(text)?;
    }
    out.write_all(b"\"")
}
