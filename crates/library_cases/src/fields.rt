//! Cases `fields` and `written`: the fields of files, as they are read and as they are written.

use crate::conditions::at_blank;
use case_files::{CaseFault, Part, Wrong, number_of, push_parts};
use case_texts::{Scene, line};
use cm_base::{NoMemory, Text};
use cm_bytes::{Reader, Short, Writer};
use std::alloc::Global;

/// A reader, by steps.
#[derive(Drop)]
pub struct FieldsScene<'a> {
    pub reader: Reader<'a>,
}

/// The line of a number that was read.
fn number_line(alloc: Global, found: Result<u32, Short>) -> Result<Vec<u8>, NoMemory> {
    let Ok(number) = found else {
        return line(alloc, b"short");
    };
    let mut out = Vec::new(alloc);
    push_parts(
        alloc,
        &mut out,
        &[Part::Number(u64::from(number)), Part::Text(b"\n")],
    )?;
    Ok(out)
}

/// The line of bytes that were read.
fn bytes_line(alloc: Global, found: Result<&[u8], Short>) -> Result<Vec<u8>, NoMemory> {
    match found {
        Ok(bytes) => line(alloc, bytes),
        Err(Short) => line(alloc, b"short"),
    }
}

impl Scene for FieldsScene<'_> {
    fn answer(
        &mut self,
        alloc: Global,
        step: &[u8],
        words: &[Text],
    ) -> Result<Option<Vec<u8>>, NoMemory> {
        match (step, words) {
            (b"u8", []) => { Ok(Some(number_line(alloc, self.reader.u8().map(u32::from))?)) }
            (b"u32", []) => Ok(Some(number_line(alloc, self.reader.u32())?)),
            (b"text", []) => Ok(Some(bytes_line(alloc, self.reader.slice())?)),
            (b"end", []) => {
                Ok(Some(line(alloc, if self.reader.at_end() { b"yes" } else { b"no" })?))
            }
            (b"raw", [count]) => match number_of(count.as_bytes()) {
                Some(count) => Ok(Some(bytes_line(alloc, self.reader.raw(count as usize))?)),
                None => Ok(None),
            },
            _ => Ok(None),
        }
    }
}

/// Writes a number. None where the bytes write none.
fn write_number(writer: &mut Writer, is_byte: bool, digits: &[u8]) -> Result<Option<()>, NoMemory> {
    let Some(number) = number_of(digits) else {
        return Ok(None);
    };
    if !is_byte {
        writer.u32(number)?;
        return Ok(Some(()));
    }
    match u8::try_from(number) {
        Ok(byte) => writer.u8(byte)?,
        Err(_) => return Ok(None),
    }
    Ok(Some(()))
}

/// Writes a text with its length. None where it is too long for one.
fn write_text(alloc: Global, writer: &mut Writer, bytes: &[u8]) -> Result<Option<()>, NoMemory> {
    let text = Text::from_bytes(alloc, bytes)?;
    if text.as_bytes().len() >= 1 << 32 {
        return Ok(None);
    }
    writer.text(&text)?;
    Ok(Some(()))
}

/// Writes the field of a line. None where the line is of no form.
fn write_field(alloc: Global, writer: &mut Writer, field: &[u8]) -> Result<Option<()>, NoMemory> {
    let Some((what, value)) = at_blank(field) else {
        return Ok(None);
    };
    match what {
        b"u8" => write_number(writer, true, value),
        b"u32" => write_number(writer, false, value),
        b"text" => write_text(alloc, writer, value),
        b"raw" => {
            writer.raw(value)?;
            Ok(Some(()))
        }
        _ => Ok(None),
    }
}

/// The bytes of fields, a field a line.
pub fn written(alloc: Global, at: u32, text: &Text) -> Result<Vec<u8>, CaseFault> {
    let mut writer = Writer::new(alloc);
    for field in text.as_bytes().split(|byte| *byte == b'\n') {
        if write_field(alloc, &mut writer, field)?.is_none() {
            return Err(CaseFault::Wrong(at, Wrong::Words));
        }
    }
    Ok(Vec::from_slice(alloc, writer.finish().as_bytes())?)
}
