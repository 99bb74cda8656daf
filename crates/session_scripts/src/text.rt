//! A text is cut into its lines, one by one.

ghost use Rattle.std.specs.Prelude.{◌≡◌, ◌≤◌, ◌==◌, ◌+◌, drop, length};
ghost use Rattle.std.specs.List.{position, position_or_len};
ghost use Rattle.session_scripts.specs.Parts.{front_line, later_text};

/// The place of the first line feed.
fn first_feed(text: &[u8]) -> Option<usize>
    ensures { result ≡ position (λ byte. byte == 10) text.now }
{
    text.iter().position(|byte| *byte == b'\n')
}

/// The length of the line at the front.
#[tactic(auto, using(path_anchors::proofs::Runs::runs))]
fn line_len(text: &[u8]) -> usize
    ensures run { result ≡ position_or_len (λ byte. byte == 10) text.now }
    ensures within { result ≤ length text.now }
{
    first_feed(text).unwrap_or(text.len())
}

/// The line at the front.
pub fn front_line(text: &[u8]) -> &[u8]
    ensures { result.now ≡ front_line text.now }
{
    &text[..line_len(text)]
}

/// What follows the line feed of the line at the front. A text that isn't empty gets shorter.
pub fn later_text(text: &[u8]) -> &[u8]
    ensures rest { result.now ≡ later_text text.now }
    ensures within { length result.now ≤ length text.now }
{
    match &text[line_len(text)..] {
        [_feed, rest @ ..] => rest,
        [] => &text[text.len()..],
    }
}
