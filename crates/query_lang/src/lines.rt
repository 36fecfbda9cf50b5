//! The lines of a text.

ghost use Rattle.std.specs.Prelude.{◌≡◌, ◌+◌, ◌<◌, ℕ, [], ◌∷◌, length, MatchOption, IfSome, position, ◌==◌};
ghost use Rattle.report_model.specs.Grammar.{without_last_cr, lines};

/// The line without the carriage return at its end.
fn without_carriage_return(line: &[u8]) -> &[u8]
    ensures { result.now ≡ without_last_cr line.now }
{
    line.strip_suffix(b"\r").unwrap_or(line)
}

/// Where the first line feed stands.
fn line_feed_in(text: &[u8]) -> Option<usize>
    ensures { result ≡ position (λ b. b == 0x0a) text.now }
{
    text.iter().position(|byte| *byte == b'\n')
}

/// The first line of a text, and the text after its line feed, where it ends by one.
pub fn split_line(text: &[u8]) -> (&[u8], Option<&[u8]>)
    ensures lines { MatchOption result.1
        (lines text.now ≡ result.0.now ∷ [])
        (λ rest. lines text.now ≡ result.0.now ∷ lines rest.now) }
    ensures shorter { IfSome result.1 (λ rest. length rest.now < length text.now) }
{
    let Some(end) = line_feed_in(text) else {
        return (text, None);
    };
    (
        without_carriage_return(&text[..end]),
        Some(&text[end + 1..]),
    )
}
