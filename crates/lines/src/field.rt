ghost use Rattle.std.specs.Prelude.{◌≡◌, IfOk};
ghost use Rattle.std.specs.Option.{option_map};
ghost use Rattle.lines.specs.Bytes.{fields_of, field_of, texts};

use crate::line::is_blank;
use std::alloc::{AllocError, Global};

/// The fields of a line: what is parted by blanks.
pub fn fields<'a>(heap: Global, line: &'a [u8]) -> Result<Vec<&'a [u8]>, AllocError>
    ensures { IfOk result (λ v. texts v.items ≡ fields_of line.now) }
{
    line.split(|&byte| is_blank(byte))
        .filter(|field| !field.is_empty())
        .collect(heap)
}

/// The field of this number, from 1, or none.
pub fn nth_field<'a>(fields: &[&'a [u8]], number: usize) -> Option<&'a [u8]>
    ensures { option_map (λ f. f.now) result ≡ field_of (texts fields.now) number }
{
    fields.get(number.checked_sub(1)?).copied()
}
