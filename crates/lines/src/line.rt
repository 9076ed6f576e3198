ghost use Rattle.std.specs.Prelude.{◌≡◌, ℕ, List, ◌-◌, ◌<◌, ◌≤◌, ◌∷◌, length};
ghost use Rattle.std.specs.List.{prefix_len, suffix_len};
ghost use Rattle.std.specs.Iterator.{YieldsFirstRef, item_count};
ghost use Rattle.lines.specs.Bytes.{blank, starts, passed, line_of, after_line, lines_of, trimmed};

use std::marker::Model;

/// The first line of a text, without the LF that ends it, and what follows that LF.
///
/// A text that is not empty has a line: the last one needs no LF.
pub fn next_line(text: &[u8]) -> (&[u8], &[u8])
    ensures line { result.0.now ≡ line_of text.now }
    ensures rest { result.1.now ≡ after_line text.now }
    ensures lines { 0 < length text.now → lines_of text.now ≡ result.0.now ∷ lines_of result.1.now }
    ensures shorter { 0 < length text.now → length result.1.now < length text.now }
{
    match text.iter().position(|&byte| byte == b'\n') {
        Some(end) => (&text[..end], &text[end + 1..]),
        None => (text, &[]),
    }
}

/// The lines of a text, one after another, each without the LF that ends it; the last line needs no LF.
#[derive(Drop)]
pub struct Lines<'a> {
    rest: &'a [u8],
}

impl<'a> Model for Lines<'a> {
    ghost Value = { List (List ℕ) };

    // the lines that are left
    ghost view = { λ it. lines_of it.rest.now };
}

impl<'a> Lines<'a> {
    /// The lines of the text, from the first.
    pub fn new(text: &'a [u8]) -> Lines<'a>
        ensures { result ≡ lines_of text.now }
    {
        Lines { rest: text }
    }
}

impl<'a> Iterator for Lines<'a> {
    type Item = &'a [u8];

    ghost next_gives = { YieldsFirstRef (λ it. it) };

    ghost remaining = { item_count (λ it. it) };

    fn next(&mut self) -> Option<&'a [u8]> {
        if self.rest.is_empty() {
            return None;
        }
        let (line, rest) = next_line(self.rest);
        self.rest = rest;
        Some(line)
    }
}

/// Whether the byte is a blank: a space, a tab or a CR.
pub(crate) fn is_blank(byte: u8) -> bool
    ensures { result ≡ blank byte }
{
    matches!(byte, b' ' | b'\t' | b'\r')
}

/// Whether the text begins with the byte.
pub fn starts_with(text: &[u8], byte: u8) -> bool
    ensures { result ≡ starts byte text.now }
{
    text.first() == Some(&byte)
}

/// Whether a line without blanks at its ends says nothing: it is empty, or a comment.
pub fn is_passed_over(line: &[u8]) -> bool
    ensures { result ≡ passed line.now }
{
    line.is_empty() || starts_with(line, b'#')
}

/// The line without the blanks at its two ends.
pub fn trim(line: &[u8]) -> &[u8]
    ensures { result.now ≡ trimmed line.now }
{
    let front = &line[..line.len() - blanks_at_end(line)];
    &front[blanks_at_start(front)..]
}

// How many blanks stand at the front.
fn blanks_at_start(text: &[u8]) -> usize
    ensures value { result ≡ prefix_len blank text.now }
    ensures within { result ≤ length text.now }
{
    text.iter().take_while(|&&byte| is_blank(byte)).count()
}

// How many blanks stand at the end. Over an iterator as a parameter, one text for both would speak of what it yields, and not of
// the text.
fn blanks_at_end(text: &[u8]) -> usize
    ensures value { result ≡ suffix_len blank text.now }
    ensures within { result ≤ length text.now }
{
    text.iter()
        .rev()
        .take_while(|&&byte| is_blank(byte))
        .count()
}
