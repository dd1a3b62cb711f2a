use crate::fault::Fault;
use std::alloc::Global;

/// A text, the samples of a recording, and the verdicts of its directives: for each one the weak, the neutral and the
/// strong view, `y` or `n`.
#[derive(Clone, Copy, Debug)]
pub struct Row<'a> {
    pub text: &'a str,
    pub samples: &'a str,
    pub verdicts: &'a str,
}

/// Reads rows of three lines each. Blank lines, and those that begin with `#`, are none.
pub fn read_rows<'a>(alloc: Global, text: &'a str) -> Result<Vec<Row<'a>>, Fault> {
    let mut rows = Vec::new(alloc);
    let (mut first, mut second) = (None, None);
    for line in text.split('\n') {
        if line.is_empty() || line.starts_with('#') {
            continue;
        }
        match (first, second) {
            (None, _) => first = Some(line),
            (_, None) => second = Some(line),
            (Some(text), Some(samples)) => {
                rows.push(Row {
                    text,
                    samples,
                    verdicts: line,
                })?;
                (first, second) = (None, None);
            }
        }
    }
    if first.is_some() {
        return Err(Fault::Row);
    }
    Ok(rows)
}
