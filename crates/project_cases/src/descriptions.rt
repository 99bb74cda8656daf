//! Cases `description` and `printed`: what a text is as a description.

use case_files::{Part, push_all, push_parts};
use case_texts::{line, push_line, refusal};
use cm_base::{Fault, List, NoMemory, Place, Text};
use cm_conditions::{Line, LineBody, space_word};
use cm_description::{Description, Entry, MemberEntry, print_description, read_description};
use std::alloc::Global;

/// Adds a place, which ends a line.
fn push_place(alloc: Global, out: &mut Vec<u8>, at: &Place) -> Result<(), NoMemory> {
    let parts = [
        Part::Text(b"@"),
        Part::Number(u64::from(at.line)),
        Part::Text(b":"),
        Part::Number(u64::from(at.col)),
        Part::Text(b"\n"),
    ];
    push_parts(alloc, out, &parts)
}

/// Adds an exported name: its space and itself.
fn push_entry(alloc: Global, out: &mut Vec<u8>, entry: &Entry) -> Result<(), NoMemory> {
    let parts = [
        Part::Text(space_word(entry.name.space)),
        Part::Text(b" "),
        Part::Text(entry.name.name.as_bytes()),
    ];
    push_parts(alloc, out, &parts)
}

/// Adds the options of a member, each behind a blank, in parentheses.
fn push_options(alloc: Global, out: &mut Vec<u8>, options: &[Text]) -> Result<(), NoMemory> {
    push_all(out, b"(")?;
    for option in options {
        push_parts(
            alloc,
            out,
            &[Part::Text(b" "), Part::Text(option.as_bytes())],
        )?;
    }
    push_all(out, b" )")
}

/// Adds a member: its path, its class, and its options.
fn push_member(alloc: Global, out: &mut Vec<u8>, member: &MemberEntry) -> Result<(), NoMemory> {
    push_all(out, member.path.as_bytes())?;
    if let Some(class) = &member.class {
        push_parts(
            alloc,
            out,
            &[Part::Text(b" : "), Part::Text(class.as_bytes())],
        )?;
    }
    if member.options.is_empty() {
        return Ok(());
    }
    push_options(alloc, out, member.options.as_slice())
}

/// Adds a directive. Of a condition nothing is shown.
fn push_directive(alloc: Global, out: &mut Vec<u8>, body: &LineBody) -> Result<(), NoMemory> {
    match body {
        LineBody::If(_) => push_all(out, b"#if"),
        LineBody::Elif(_) => push_all(out, b"#elif"),
        LineBody::Else => push_all(out, b"#else"),
        LineBody::Endif => push_all(out, b"#endif"),
        LineBody::Error(text) => {
            let parts = [
                Part::Text(b"#error<"),
                Part::Text(text.as_bytes()),
                Part::Text(b">"),
            ];
            push_parts(alloc, out, &parts)
        }
        LineBody::Item(_) => push_all(out, b"no such item"),
    }
}

/// Adds a line of an export list, and its place.
fn push_export(
    alloc: Global,
    out: &mut Vec<u8>,
    line: &Line,
    entries: &List<Entry>,
) -> Result<(), NoMemory> {
    match item_of(line, entries) {
        Some(entry) => push_entry(alloc, out, entry)?,
        None => push_directive(alloc, out, &line.body)?,
    }
    push_place(alloc, out, &line.at)
}

/// Adds a line of a member list, and its place.
fn push_member_line(
    alloc: Global,
    out: &mut Vec<u8>,
    line: &Line,
    members: &List<MemberEntry>,
) -> Result<(), NoMemory> {
    match item_of(line, members) {
        Some(member) => push_member(alloc, out, member)?,
        None => push_directive(alloc, out, &line.body)?,
    }
    push_place(alloc, out, &line.at)
}

/// The item of a line.
fn item_of<'a, T>(line: &Line, items: &'a List<T>) -> Option<&'a T> {
    match &line.body {
        LineBody::Item(number) => items.get(*number as usize),
        _ => None,
    }
}

/// The lines of a description: its kind, its export list, `is`, and its member list.
fn lines_of(alloc: Global, description: &Description) -> Result<Vec<u8>, NoMemory> {
    let mut out = Vec::new(alloc);
    push_line(
        alloc,
        &mut out,
        if description.library {
            b"library"
        } else {
            b"group"
        },
    )?;
    for line in description.export_lines.as_slice() {
        push_export(alloc, &mut out, line, &description.entries)?;
    }
    push_line(alloc, &mut out, b"is")?;
    for line in description.member_lines.as_slice() {
        push_member_line(alloc, &mut out, line, &description.members)?;
    }
    Ok(out)
}

/// The lines of the description that a text is, or its refusal.
pub fn described(alloc: Global, text: &Text) -> Result<Vec<u8>, NoMemory> {
    let file = Text::from_bytes(alloc, b"g.cm")?;
    match read_description(alloc, &file, text) {
        Ok(description) => lines_of(alloc, &description),
        Err(fault) => refusal(alloc, &fault),
    }
}

/// A text as it is printed once it is read.
fn shown(alloc: Global, text: &Text) -> Result<Text, Fault> {
    let file = Text::from_bytes(alloc, b"g.cm")?;
    let description = read_description(alloc, &file, text)?;
    Ok(print_description(alloc, &description)?)
}

/// What was printed; and what comes of it where that isn't printed in the same way.
fn printed_again(alloc: Global, once: Text) -> Result<Vec<u8>, NoMemory> {
    let mut out = Vec::from_slice(alloc, once.as_bytes())?;
    match shown(alloc, &once) {
        Ok(again) if again == once => {}
        Ok(again) => push_all(&mut out, again.as_bytes())?,
        Err(fault) => push_all(&mut out, refusal(alloc, &fault)?.as_slice())?,
    }
    Ok(out)
}

/// A description as it is printed, or its refusal.
pub fn printed(alloc: Global, text: &Text) -> Result<Vec<u8>, NoMemory> {
    match shown(alloc, text) {
        Ok(once) => printed_again(alloc, once),
        Err(fault) => refusal(alloc, &fault),
    }
}
