//! The module that a file's text is embedded in: it is named by the file.

ghost use Rattle.std.specs.Prelude.{◌≡◌, ◌==◌, ◌++◌, ◌∷◌, [], OnOk, map};
ghost use Rattle.std.specs.List.{before_first, after_last};
ghost use Rattle.cm_base.specs.ByteClasses as bytes;
ghost use Rattle.cm_base.specs.Derived.{with_capital};
ghost use Rattle.bundled_tools.specs.Lines as lines;

use cm_base::{NoMemory, is_identifier_byte, is_letter};
use cm_bytes::Writer;

// What stands behind the last slash.
fn last_component(name: &[u8]) -> &[u8]
    ensures { result.now ≡ after_last (λ byte. byte == 47) name.now }
{
    let mut start = name.len();
    while start > 0 && name[start - 1] != b'/' {
        start -= 1;
    }
    &name[start..]
}

// What stands before the first dot.
fn before_dot(name: &[u8]) -> &[u8]
    ensures { result.now ≡ before_first (λ byte. byte == 46) name.now }
{
    let mut end = 0;
    while end < name.len() && name[end] != b'.' {
        end += 1;
    }
    &name[..end]
}

// A byte of a module's name, `_` in the place of one that no identifier has.
fn name_byte(byte: u8) -> u8
    ensures { result ≡ lines.name_byte byte }
{
    if is_identifier_byte(byte) { byte } else { b'_' }
}

// The first byte of a name: a capital, behind `X` where it is no letter.
fn append_first(out: &mut Writer, byte: u8) -> Result<(), NoMemory>
    ensures { OnOk result (out.new ≡ out.old ++ with_capital (byte ∷ [])) }
{
    if is_letter(byte) {
        out.u8(byte.to_ascii_uppercase())
    } else {
        out.u8(b'X')?;
        out.u8(byte)
    }
}

// The bytes of a name behind its first.
fn append_rest(out: &mut Writer, part: &[u8]) -> Result<(), NoMemory>
    ensures { OnOk result (out.new ≡ out.old ++ map lines.name_byte part.now) }
{
    for byte in part {
        out.u8(name_byte(*byte))?;
    }
    Ok(())
}

// A name that begins with a capital.
fn append_name(out: &mut Writer, part: &[u8]) -> Result<(), NoMemory>
    ensures { OnOk result (out.new ≡ out.old ++ with_capital (map lines.name_byte part.now)) }
{
    match part {
        [first, rest @ ..] => {
            append_first(out, name_byte(*first))?;
            append_rest(out, rest)
        }
        [] => out.u8(b'X'),
    }
}

/// The name of a unit's module: its last component up to the first dot, as an identifier that begins with a capital.
#[tactic(auto, using(crate::proofs::Modules::name_of_parts))]
pub fn append_module(out: &mut Writer, unit: &[u8]) -> Result<(), NoMemory>
    ensures { OnOk result (out.new ≡ out.old ++ lines.module_name unit.now) }
{
    append_name(out, before_dot(last_component(unit)))
}
