ghost use Rattle.std.specs.Prelude.{◌≡◌, ◌-◌, ◌<◌, drop};
ghost use Rattle.std.specs.Option.{ok_or};
ghost use Rattle.lines.specs.Bytes.{texts};
ghost use Rattle.orders.specs.Fields.{ok_mapped, fault, text_at, read_at, end_at, each_on, checked};

use crate::expected::{Expected, Malformed};
use crate::from_text::FromText;
use lines::nth_field;

// The fields of a line, the number of one and what is expected there go as three arguments: a value of the first two would change
// every clause and read no plainer, and one of the last two is `Malformed`, which says that something was wrong.

/// The text of a field.
pub(crate) fn text_at<'a>(
    fields: &[&'a [u8]],
    field: usize,
    expected: Expected,
) -> Result<&'a [u8], Malformed>
    ensures { ok_mapped (λ t. t.now) result ≡ text_at expected (texts fields.now) field }
{
    nth_field(fields, field).ok_or(Malformed { field, expected })
}

/// The value that a field spells.
pub(crate) fn read_at<T: FromText>(
    fields: &[&[u8]],
    field: usize,
    expected: Expected,
) -> Result<T, Malformed>
    ensures { ok_mapped T.means result ≡ read_at T.spells expected (texts fields.now) field }
{
    read_text(text_at(fields, field, expected)?, field, expected)
}

/// The value that the text of a field spells.
pub(crate) fn read_text<T: FromText>(
    text: &[u8],
    field: usize,
    expected: Expected,
) -> Result<T, Malformed>
    ensures { ok_mapped T.means result ≡ ok_or (T.spells text.now) (fault field expected) }
{
    T::from_text(text).ok_or(Malformed { field, expected })
}

/// Checks that the line ends before the field of this number.
pub(crate) fn end_at(fields: &[&[u8]], field: usize) -> Result<(), Malformed>
    ensures { result ≡ end_at (texts fields.now) field }
{
    match nth_field(fields, field) {
        None => Ok(()),
        Some(_) => Err(Malformed {
            field,
            expected: Expected::TheEnd,
        }),
    }
}

/// The fields from this number on.
pub(crate) fn fields_from<'a>(fields: &'a [&'a [u8]], first: usize) -> &'a [&'a [u8]]
    requires { 0 < first }
    ensures { texts result.now ≡ drop (first - 1) (texts fields.now) }
{
    fields.get(first - 1..).unwrap_or(&[])
}

/// Checks that each field from this number on spells a value.
pub(crate) fn check_from<T: FromText + Drop>(
    fields: &[&[u8]],
    first: usize,
    expected: Expected,
) -> Result<(), Malformed>
    requires { 0 < first }
    ensures { result ≡ checked (each_on T.spells expected first (drop (first - 1) (texts fields.now))) }
{
    for (index, text) in fields_from(fields, first).iter().enumerate() {
        read_text::<T>(text, first + index, expected)?;
    }
    Ok(())
}
