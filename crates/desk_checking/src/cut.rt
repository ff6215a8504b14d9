//! Where the model ends and the requests begin.
ghost use Rattle.std.specs.Prelude.{◌≡◌, ◌≤◌, drop, length};
ghost use Rattle.std.specs.List.{prefix_len};
ghost use Rattle.desk_lines.specs.Lines.{lines_of};
ghost use Rattle.desk_checking.specs.Input.{goes_on, model_text, request_lines};

use crate::options::CheckOptions;

/// Whether a byte is no newline.
fn goes_on(byte: u8) -> bool
    ensures { result ≡ goes_on byte }
{
    byte != b'\n'
}

/// How many bytes stand before the first newline.
pub(crate) fn line_length(text: &[u8]) -> usize
    ensures length { result ≡ prefix_len goes_on text.now }
    ensures within { result ≤ length text.now }
{
    for (i, byte) in text.iter().enumerate() {
        if !goes_on(*byte) {
            return i;
        }
    }
    text.len()
}

/// What stands behind the first byte: behind the newline that a line leaves over.
pub(crate) fn behind_newline(text: &[u8]) -> &[u8]
    ensures { result.now ≡ drop 1 text.now }
{
    match text.split_first() {
        Some((_, behind)) => behind,
        None => text,
    }
}

/// The text of the model in an input, and that of the lines of requests: the first line and what stands behind it where the options say
/// that there are requests, and otherwise all and nothing.
pub(crate) fn model_and_requests(options: CheckOptions, text: &[u8]) -> (&[u8], &[u8])
    ensures model { result.0.now ≡ model_text options text.now }
    ensures requests { lines_of result.1.now ≡ request_lines options text.now }
{
    if options.requests {
        let (model, rest) = text.split_at(line_length(text));
        return (model, behind_newline(rest));
    }
    (text, &[])
}
