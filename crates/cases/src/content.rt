use crate::case::{Case, Form, Section};
use crate::fault::Fault;
use psl_base::Bytes;
use std::alloc::Global;

/// Where the reading of an escape stands.
#[derive(Clone, Copy)]
enum Escape {
    None,
    Begun,
    High,
    Low(u8),
}

/// The bytes of a section, behind those of the common section that it names.
pub fn content_of<'a>(
    alloc: Global,
    common: &Case<'a>,
    section: &Section<'a>,
) -> Result<Bytes, Fault> {
    let mut content = Vec::new(alloc);
    if let Some(name) = section.after {
        let Some(before) = common.section(name) else {
            return Err(Fault::Content);
        };
        add_section(alloc, before, &mut content)?;
    }
    add_section(alloc, section, &mut content)?;
    Ok(Bytes::from_vec(content))
}

fn add_section(alloc: Global, section: &Section<'_>, content: &mut Vec<u8>) -> Result<(), Fault> {
    for line in section.lines.as_slice() {
        match section.form {
            Form::Plain => content.extend_from_slice(line.as_bytes())?,
            Form::Escaped => add_escaped(alloc, line, 0, content)?,
            Form::Made => add_made(alloc, line, content)?,
        }
        if !matches!(section.form, Form::Made) {
            content.push(b'\n')?;
        }
    }
    if section.is_cut {
        let _last = content.pop();
    }
    Ok(())
}

/// A text in quotation marks, so often as the words before it say.
fn add_made(alloc: Global, line: &str, content: &mut Vec<u8>) -> Result<(), Fault> {
    let Some((times, text)) = quoted(line) else {
        return Err(Fault::Content);
    };
    let Some((first, last)) = range_of(times) else {
        return Err(Fault::Content);
    };
    for number in first..u64::from(last).saturating_add(1) {
        add_escaped(alloc, text, number, content)?;
    }
    Ok(())
}

/// What stands before the first quotation mark, and what between the first and the last.
fn quoted(line: &str) -> Option<(&str, &str)> {
    line.strip_suffix('"')?.split_once('"')
}

/// The first and the last number of `FIRST to LAST`; `COUNT times` begins at 1, and no words are once.
fn range_of(times: &str) -> Option<(u64, u32)> {
    let mut words = times.split_whitespace();
    match (words.next(), words.next(), words.next(), words.next()) {
        (None, _, _, _) => Some((1, 1)),
        (Some(count), Some("times"), None, _) => Some((1, count.parse::<u32>().ok()?)),
        (Some(first), Some("to"), Some(last), None) => {
            Some((
                u64::from(first.parse::<u32>().ok()?),
                last.parse::<u32>().ok()?,
            ))
        }
        _ => None,
    }
}

/// A text whose escapes are read; `\#` is the number of the repetition.
fn add_escaped(alloc: Global, text: &str, number: u64, content: &mut Vec<u8>) -> Result<(), Fault> {
    let mut escape = Escape::None;
    for byte in text.bytes() {
        escape = match (escape, byte) {
            (Escape::None, b'\\') => Escape::Begun,
            (Escape::None, _) => {
                content.push(byte)?;
                Escape::None
            }
            (Escape::Begun, b'x') => Escape::High,
            (Escape::Begun, b'#') => {
                content.extend_from_slice(format!(in alloc; "{number}")?.as_bytes())?;
                Escape::None
            }
            (Escape::Begun, _) => {
                content.push(named(byte)?)?;
                Escape::None
            }
            (Escape::High, _) => Escape::Low(digit(byte)?),
            (Escape::Low(high), _) => {
                content.push(high.wrapping_mul(16) | digit(byte)?)?;
                Escape::None
            }
        };
    }
    match escape {
        Escape::None => Ok(()),
        _ => Err(Fault::Content),
    }
}

/// The byte that a letter stands for behind `\`.
fn named(letter: u8) -> Result<u8, Fault> {
    match letter {
        b'n' => Ok(b'\n'),
        b'r' => Ok(b'\r'),
        b't' => Ok(b'\t'),
        b'0' => Ok(0),
        b'\\' => Ok(b'\\'),
        b'"' => Ok(b'"'),
        _ => Err(Fault::Content),
    }
}

/// The value of a hexadecimal digit.
fn digit(letter: u8) -> Result<u8, Fault> {
    match letter {
        b'0'..=b'9' => Ok(letter - b'0'),
        b'a'..=b'f' => Ok(letter - b'a' + 10),
        _ => Err(Fault::Content),
    }
}
