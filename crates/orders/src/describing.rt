ghost use Rattle.std.specs.Prelude.{◌≡◌};
ghost use Rattle.orders.specs.Fields.{chosen};
ghost use Rattle.orders.specs.Words.{option_of, limit_of};

use crate::from_text::FromText;
use crate::number::decimal;

/// An option of describe: `--always`, `--first-parent`, or `--candidates=` and then a number.
///
/// Which one it is, is not kept: the question is not answered yet.
#[derive(Clone, Copy)]
pub(crate) struct DescribeOption;

impl FromText for DescribeOption {
    ghost Meaning = { Unit {0} };

    ghost means = { λ _. tt };

    ghost spells = { λ t. chosen (option_of t) };

    fn from_text(text: &[u8]) -> Option<DescribeOption> {
        if limits_candidates(text) {
            return Some(DescribeOption);
        }
        match text {
            b"--always" | b"--first-parent" => Some(DescribeOption),
            _ => None,
        }
    }
}

// Whether the text is `--candidates=` and then a number.
fn limits_candidates(text: &[u8]) -> bool
    ensures { result ≡ limit_of text.now }
{
    text.strip_prefix(b"--candidates=")
        .is_some_and(|limit| decimal(limit).is_some())
}
