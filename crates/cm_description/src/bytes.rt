//! Parts of texts.

ghost use Rattle.std.specs.Prelude.{◌≡◌, ◌-◌, drop, take, length};
ghost use Rattle.std.specs.List.{prefix_len};
ghost use Rattle.std.specs.Prelude.{reverse};
ghost use Rattle.cm_description.specs.Words.{is_space, without_spaces, without_spaces_behind, trimmed};

/// The bytes from a place on; none where it is the end or lies behind it.
pub(crate) fn from(bytes: &[u8], start: usize) -> &[u8]
    ensures { result.now ≡ drop start bytes.now }
{
    if start > bytes.len() {
        return &[];
    }
    let (_, rest) = bytes.split_at(start);
    rest
}

/// So many bytes at the front, or all where there are fewer.
pub(crate) fn upto(bytes: &[u8], len: usize) -> &[u8]
    ensures { result.now ≡ take len bytes.now }
{
    if len > bytes.len() {
        return bytes;
    }
    let (front, _) = bytes.split_at(len);
    front
}

/// The bytes between the first and the last.
pub(crate) fn inside(bytes: &[u8]) -> &[u8]
    ensures { result.now ≡ take (length bytes.now - 2) (drop 1 bytes.now) }
{
    upto(from(bytes, 1), bytes.len().saturating_sub(2))
}

/// Whether a byte is a space or a tab.
fn is_space(byte: u8) -> bool
    ensures { result ≡ is_space byte }
{
    byte == b' ' || byte == b'\t'
}

/// The number of spaces and tabs at the front.
fn space_len(bytes: &[u8]) -> usize
    ensures { result ≡ prefix_len is_space bytes.now }
{
    bytes.iter().take_while(|byte| is_space(**byte)).count()
}

/// The number of spaces and tabs at the end.
fn space_len_behind(bytes: &[u8]) -> usize
    ensures { result ≡ prefix_len is_space (reverse bytes.now) }
{
    bytes
        .iter()
        .rev()
        .take_while(|byte| is_space(**byte))
        .count()
}

/// The bytes without the spaces and tabs at the end.
fn without_spaces_behind(bytes: &[u8]) -> &[u8]
    ensures { result.now ≡ without_spaces_behind bytes.now }
{
    upto(bytes, bytes.len().saturating_sub(space_len_behind(bytes)))
}

/// The bytes without the spaces and tabs at both ends.
pub(crate) fn trimmed(bytes: &[u8]) -> &[u8]
    ensures { result.now ≡ trimmed bytes.now }
{
    without_spaces_behind(from(bytes, space_len(bytes)))
}
