//! Prints descriptions.

ghost use Rattle.std.specs.Prelude.{◌≡◌, ◌++◌, ◌∷◌, IfOk, OnOk};
ghost use Rattle.std.specs.List.{flat_map, list_all};
ghost use Rattle.std.specs.Option.{option_copied};
ghost use Rattle.cm_conditions.specs.Printing.{printed as printed_condition};
ghost use Rattle.cm_lexer.specs.Bytes.{is_word_byte};
ghost use Rattle.cm_description.specs.Again.{IsPrinted, IsRead};
ghost use Rattle.cm_description.specs.Printing.{class_text, directive_line, directive_rest, directive_word, entry_text, is_line, is_plain, item_line_of, kind_line, line_text, listed, member_text, option_text, options_text, path_text, printed};

use crate::description::{Description, Entry, MemberEntry};
use cm_base::{NoMemory, Text};
use cm_conditions::{Cond, Line, LineBody, print_condition, space_word};
use cm_lexer::is_word_byte;
use std::alloc::Global;

/// Adds bytes at the end.
fn add(out: &mut Vec<u8>, bytes: &[u8]) -> Result<(), NoMemory>
    ensures { OnOk result (out.new.items ≡ out.old.items ++ bytes.now) }
{
    Ok(out.extend_from_slice(bytes)?)
}

/// The word of a directive; an item has none.
#[tactic(auto, unfolding(crate::specs::Printing::directive_word))]
fn directive_word(body: &LineBody) -> &'static [u8]
    ensures { result.now ≡ directive_word body.now }
{
    match body {
        LineBody::If(_) => b"if",
        LineBody::Elif(_) => b"elif",
        LineBody::Else => b"else",
        LineBody::Endif => b"endif",
        LineBody::Error(_) => b"error",
        LineBody::Item(_) => b"",
    }
}

/// Adds a condition behind a space.
fn add_condition(alloc: Global, out: &mut Vec<u8>, cond: &Cond) -> Result<(), NoMemory>
    ensures { OnOk result (out.new.items ≡ out.old.items ++ 32 ∷ printed_condition cond.now) }
{
    let text = print_condition(alloc, cond)?;
    add(out, b" ")?;
    add(out, text.as_bytes())
}

/// Adds what stands behind the word of a directive.
fn add_rest(alloc: Global, out: &mut Vec<u8>, body: &LineBody) -> Result<(), NoMemory>
    ensures { OnOk result (out.new.items ≡ out.old.items ++ directive_rest body.now) }
{
    match body {
        LineBody::If(cond) | LineBody::Elif(cond) => add_condition(alloc, out, cond),
        LineBody::Error(text) => {
            add(out, b" ")?;
            add(out, text.as_bytes())
        }
        LineBody::Else | LineBody::Endif | LineBody::Item(_) => Ok(()),
    }
}

/// Adds the line of a directive.
fn add_directive(alloc: Global, out: &mut Vec<u8>, body: &LineBody) -> Result<(), NoMemory>
    ensures { OnOk result (out.new.items ≡ out.old.items ++ directive_line body.now) }
{
    add(out, b"#")?;
    add(out, directive_word(body))?;
    add_rest(alloc, out, body)?;
    add(out, b"\n")
}

/// Adds an entry.
fn add_entry(out: &mut Vec<u8>, entry: &Entry) -> Result<(), NoMemory>
    ensures { OnOk result (out.new.items ≡ out.old.items ++ entry_text entry.now) }
{
    add(out, space_word(entry.name.space))?;
    add(out, b" ")?;
    add(out, entry.name.name.as_bytes())
}

/// Whether each of these bytes may stand in a word.
fn are_word_bytes(bytes: &[u8]) -> bool
    ensures { result ≡ list_all is_word_byte bytes.now }
{
    bytes.iter().all(|byte| is_word_byte(*byte))
}

/// Whether a path is a word.
fn is_plain(path: &[u8]) -> bool
    ensures { result ≡ is_plain path.now }
{
    match path.split_first() {
        Some((byte, bytes)) => is_word_byte(*byte) && are_word_bytes(bytes),
        None => false,
    }
}

/// Adds a path, in quotes where it is no word.
fn add_path(out: &mut Vec<u8>, path: &[u8]) -> Result<(), NoMemory>
    ensures { OnOk result (out.new.items ≡ out.old.items ++ path_text path.now) }
{
    if is_plain(path) {
        return add(out, path);
    }
    add(out, b"\"")?;
    add(out, path)?;
    add(out, b"\"")
}

/// Adds an option behind another.
fn add_option(out: &mut Vec<u8>, option: &Text) -> Result<(), NoMemory>
    ensures { OnOk result (out.new.items ≡ out.old.items ++ option_text option.now) }
{
    add(out, b" ")?;
    add(out, option.as_bytes())
}

/// Adds options behind another.
fn add_more_options(out: &mut Vec<u8>, options: &[Text]) -> Result<(), NoMemory>
    ensures { OnOk result (out.new.items ≡ out.old.items ++ flat_map option_text options.now) }
{
    for option in options {
        add_option(out, option)?;
    }
    Ok(())
}

/// Adds the options of a class, if there are any.
fn add_options(out: &mut Vec<u8>, options: &[Text]) -> Result<(), NoMemory>
    ensures { OnOk result (out.new.items ≡ out.old.items ++ options_text options.now) }
{
    let Some((first, more)) = options.split_first() else {
        return Ok(());
    };
    add(out, b" (")?;
    add(out, first.as_bytes())?;
    add_more_options(out, more)?;
    add(out, b")")
}

/// Adds a member.
fn add_member(out: &mut Vec<u8>, member: &MemberEntry) -> Result<(), NoMemory>
    ensures { OnOk result (out.new.items ≡ out.old.items ++ member_text member.now) }
{
    add_path(out, member.path.as_bytes())?;
    let Some(class) = &member.class else {
        return Ok(());
    };
    add(out, b" : ")?;
    add(out, class.as_bytes())?;
    add_options(out, member.options.as_slice())
}

/// Adds the line of an entry, if there is one.
fn add_entry_line(out: &mut Vec<u8>, entry: Option<&Entry>) -> Result<(), NoMemory>
    ensures { OnOk result (out.new.items ≡ out.old.items ++ item_line_of entry_text (option_copied entry.entry)) }
{
    let Some(entry) = entry else {
        return Ok(());
    };
    add(out, b"  ")?;
    add_entry(out, entry)?;
    add(out, b"\n")
}

/// Adds a line of an export list: an entry of these, or a directive.
fn add_export_line(
    alloc: Global,
    out: &mut Vec<u8>,
    entries: &[Entry],
    body: &LineBody,
) -> Result<(), NoMemory>
    ensures { OnOk result (out.new.items ≡ out.old.items ++ line_text entry_text entries.now body.now) }
{
    match body {
        LineBody::Item(number) => add_entry_line(out, entries.get(*number as usize)),
        _ => add_directive(alloc, out, body),
    }
}

/// Adds the lines of an export list.
fn add_exports(
    alloc: Global,
    out: &mut Vec<u8>,
    entries: &[Entry],
    lines: &[Line],
) -> Result<(), NoMemory>
    ensures { OnOk result (out.new.items ≡ out.old.items ++ listed entry_text entries.now lines.now) }
{
    for line in lines {
        add_export_line(alloc, out, entries, &line.body)?;
    }
    Ok(())
}

/// Adds the line of a member, if there is one.
fn add_item_line(out: &mut Vec<u8>, member: Option<&MemberEntry>) -> Result<(), NoMemory>
    ensures { OnOk result (out.new.items ≡ out.old.items ++ item_line_of member_text (option_copied member.entry)) }
{
    let Some(member) = member else {
        return Ok(());
    };
    add(out, b"  ")?;
    add_member(out, member)?;
    add(out, b"\n")
}

/// Adds a line of a member list: a member of these, or a directive.
fn add_member_line(
    alloc: Global,
    out: &mut Vec<u8>,
    members: &[MemberEntry],
    body: &LineBody,
) -> Result<(), NoMemory>
    ensures { OnOk result (out.new.items ≡ out.old.items ++ line_text member_text members.now body.now) }
{
    match body {
        LineBody::Item(number) => add_item_line(out, members.get(*number as usize)),
        _ => add_directive(alloc, out, body),
    }
}

/// Adds the lines of a member list.
fn add_members(
    alloc: Global,
    out: &mut Vec<u8>,
    members: &[MemberEntry],
    lines: &[Line],
) -> Result<(), NoMemory>
    ensures { OnOk result (out.new.items ≡ out.old.items ++ listed member_text members.now lines.now) }
{
    for line in lines {
        add_member_line(alloc, out, members, &line.body)?;
    }
    Ok(())
}

/// The first line.
#[tactic(auto, unfolding(crate::specs::Printing::kind_line))]
fn kind_line(library: bool) -> &'static [u8]
    ensures { result.now ≡ kind_line library }
{
    if library { b"library\n" } else { b"group\n" }
}

/// The line between both lists.
#[tactic(auto, unfolding(crate::specs::Printing::is_line))]
fn is_line() -> &'static [u8]
    ensures { result.now ≡ is_line }
{
    b"is\n"
}

/// Adds the text of a description.
#[tactic(auto, unfolding(crate::specs::Printing::printed))]
fn add_description(
    alloc: Global,
    out: &mut Vec<u8>,
    description: &Description,
) -> Result<(), NoMemory>
    ensures { OnOk result (out.new.items ≡ out.old.items ++ printed description.now) }
{
    add(out, kind_line(description.library))?;
    add_exports(
        alloc,
        out,
        description.entries.as_slice(),
        description.export_lines.as_slice(),
    )?;
    add(out, is_line())?;
    add_members(
        alloc,
        out,
        description.members.as_slice(),
        description.member_lines.as_slice(),
    )
}

/// The text of a description that was read: a line for each directive, entry and member, in their order. It is a
/// description that says the same in other places. Whoever reads it gets the same in other places, or the refusal 12
/// if it has become longer than 65,536 bytes.
pub fn print_description(alloc: Global, description: &Description) -> Result<Text, NoMemory>
    requires { IsRead description.now }
    ensures again { IfOk result (λ text. IsPrinted description.now text) }
    ensures text { IfOk result (λ text. text ≡ printed description.now) }
{
    let mut out = Vec::new(alloc);
    add_description(alloc, &mut out, description)?;
    Ok(Text::from_vec(out))
}
