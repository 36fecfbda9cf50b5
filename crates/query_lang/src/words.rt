//! The words of a line.

ghost use Rattle.std.specs.Prelude.{◌≡◌, not, position};
ghost use Rattle.std.specs.List.{list_any};
ghost use Rattle.std.specs.Iterator.{YieldsFirstBy, item_count};
ghost use Rattle.report_model.specs.Grammar.{words};
ghost use Rattle.report_model.specs.Grammar.{is_blank as is_blank_byte};
ghost use Rattle.query_lang.specs.Parts.{from_word, first_word, after_word};
ghost use Rattle.report_model.specs.Grammar.{is_bad_byte as is_bad, is_comment as is_comment_line};

/// Whether the byte separates words.
fn is_blank(byte: u8) -> bool
    ensures { result ≡ is_blank_byte byte }
{
    byte == b' ' || byte == b'\t'
}

/// Whether no line but a comment may have the byte.
fn is_bad_byte(byte: u8) -> bool
    ensures { result ≡ is_bad byte }
{
    !(byte == b'\t' || (b' '..=b'~').contains(&byte))
}

/// Whether the line has a byte that only a comment may have.
pub fn has_bad_byte(line: &[u8]) -> bool
    ensures { result ≡ list_any is_bad line.now }
{
    line.iter().any(|byte| is_bad_byte(*byte))
}

/// Where the first byte stands that is no blank.
fn first_in_word(text: &[u8]) -> Option<usize>
    ensures { result ≡ position (λ b. not (is_blank_byte b)) text.now }
{
    text.iter().position(|byte| !is_blank(*byte))
}

/// Where the first blank stands.
fn first_blank(text: &[u8]) -> Option<usize>
    ensures { result ≡ position is_blank_byte text.now }
{
    text.iter().position(|byte| is_blank(*byte))
}

/// The text from its first byte that is no blank.
fn without_blanks(text: &[u8]) -> &[u8]
    ensures { result.now ≡ from_word text.now }
{
    let start = first_in_word(text).unwrap_or(text.len());
    &text[start..]
}

/// What stands before the first blank of a text, and that blank with what stands after it.
fn split_at_blank(text: &[u8]) -> (&[u8], &[u8])
    ensures word { result.0.now ≡ first_word text.now }
    ensures after { result.1.now ≡ after_word text.now }
{
    let end = first_blank(text).unwrap_or(text.len());
    text.split_at(end)
}

/// Whether the first byte of the line that is no blank is `#`.
pub fn is_comment(line: &[u8]) -> bool
    ensures { result ≡ is_comment_line line.now }
{
    without_blanks(line).starts_with(b"#")
}

/// The words of a line, from some place on.
#[derive(Drop)]
pub struct Words<'a> {
    pub rest: &'a [u8],
}

impl<'a> Iterator for Words<'a> {
    type Item = &'a [u8];

    ghost next_gives = { YieldsFirstBy (λ word. word.now) (λ s. words s.rest.now) };

    ghost remaining = { item_count (λ s. words s.rest.now) };

    fn next(&mut self) -> Option<&'a [u8]> {
        let text = without_blanks(self.rest);
        let (word, after) = split_at_blank(text);
        self.rest = after;
        if word.is_empty() { None } else { Some(word) }
    }
}
