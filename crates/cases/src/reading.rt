use crate::case::Case;
use crate::fault::Fault;
use std::alloc::Global;

/// Reads what the cases of a file have in common, and behind it the cases, one at the least. Each begins with a line of its
/// title, behind `== `.
pub fn read_cases<'a>(alloc: Global, text: &'a str) -> Result<Vec<Case<'a>>, Fault> {
    let mut all = Vec::new(alloc);
    all.push(Case::new(alloc, ""))?;
    let mut number = 0u64;
    for line in text.strip_suffix('\n').unwrap_or(text).split('\n') {
        number = number.saturating_add(1);
        let Some(open) = all.as_mut_slice().last_mut() else {
            return Err(Fault::Line(number));
        };
        if let Some(title) = line.strip_prefix("== ") {
            open.end();
            all.push(Case::new(alloc, title))?;
        } else if open.add_line(alloc, line)?.is_none() {
            return Err(Fault::Line(number));
        }
    }
    if all.len() < 2 {
        return Err(Fault::Line(number));
    }
    Ok(all)
}
