use crate::fault::Fault;
use psl_base::Numbers;
use std::alloc::Global;

/// How the lines of a content are read.
#[derive(Clone, Copy, Debug)]
pub enum Form {
    /// As they stand, each with a line feed.
    Plain,
    /// The same, with escapes.
    Escaped,
    /// Each as a text in quotation marks that is written once or more, without a line feed.
    Made,
}

/// A file or an output of a case.
#[derive(Debug, Drop)]
pub struct Section<'a> {
    pub name: &'a str,
    /// The section of the common part whose content stands before this one's.
    pub after: Option<&'a str>,
    pub form: Form,
    /// Whether the last line feed is taken off.
    pub is_cut: bool,
    /// Whether it is what a file has after the run, and not before it.
    pub is_written: bool,
    pub lines: Vec<&'a str>,
}

/// A case, or what a file of cases has in common; the common part has no title.
#[derive(Debug, Drop)]
pub struct Case<'a> {
    pub title: &'a str,
    pub command: Option<&'a str>,
    pub status: Option<u8>,
    /// The calls of the files that fail, counted from 1.
    pub unread: Numbers,
    /// How many bytes a call of the files or of an output gives or takes at the most.
    pub piece: Option<u32>,
    /// How many bytes the names and the contents of new files may have together.
    pub file_room: Option<u32>,
    /// The calls of the standard output that fail, and how many bytes it takes.
    pub unwritten: Numbers,
    pub room: Option<u32>,
    /// The same of the standard error.
    pub untold: Numbers,
    pub error_room: Option<u32>,
    pub sections: Vec<Section<'a>>,
}

impl<'a> Section<'a> {
    /// A section of a heading: a name, and words on its form behind it.
    pub fn of_heading(alloc: Global, heading: &'a str) -> Option<Section<'a>> {
        let mut words = heading.split_whitespace();
        let mut section = Section {
            name: words.next()?,
            after: None,
            form: Form::Plain,
            is_cut: false,
            is_written: false,
            lines: Vec::new(alloc),
        };
        let mut is_named = false;
        for word in words {
            match word {
                _ if is_named => {
                    section.after = Some(word);
                    is_named = false;
                }
                "after" => is_named = true,
                "escaped" => section.form = Form::Escaped,
                "made" => section.form = Form::Made,
                "cut" => section.is_cut = true,
                "written" => section.is_written = true,
                _ => return None,
            }
        }
        if is_named { None } else { Some(section) }
    }
}

impl<'a> Case<'a> {
    /// A case of which no more than the title is known.
    pub fn new(alloc: Global, title: &'a str) -> Case<'a> {
        Case {
            title,
            command: None,
            status: None,
            unread: Numbers::new(alloc),
            piece: None,
            file_room: None,
            unwritten: Numbers::new(alloc),
            room: None,
            untold: Numbers::new(alloc),
            error_room: None,
            sections: Vec::new(alloc),
        }
    }

    /// The last section of a name.
    pub fn section(&self, name: &str) -> Option<&Section<'a>> {
        self.sections
            .as_slice()
            .iter()
            .rev()
            .find(|section| section.name == name)
    }

    /// The last section of a name that is written.
    pub fn written(&self, name: &str) -> Option<&Section<'a>> {
        self.sections
            .as_slice()
            .iter()
            .rev()
            .find(|section| section.is_written && section.name == name)
    }

    /// Takes a line of the case; `None` where it is of no case.
    pub fn add_line(&mut self, alloc: Global, line: &'a str) -> Result<Option<()>, Fault> {
        if let Some(heading) = heading_of(line) {
            let Some(section) = Section::of_heading(alloc, heading) else {
                return Ok(None);
            };
            self.sections.push(section)?;
            return Ok(Some(()));
        }
        match self.sections.as_mut_slice().last_mut() {
            Some(section) => {
                section.lines.push(line)?;
                Ok(Some(()))
            }
            None => self.add_setting(line),
        }
    }

    /// Takes a line that stands before all sections.
    fn add_setting(&mut self, line: &'a str) -> Result<Option<()>, Fault> {
        let mut words = line.split_whitespace();
        match (words.next(), words.next(), words.next()) {
            (None, _, _) => {}
            (Some("pslc" | "sat"), _, _) => self.command = Some(line),
            (Some("status"), Some(number), None) => self.status = number.parse::<u8>().ok(),
            (Some("piece"), Some(size), None) => self.piece = size.parse::<u32>().ok(),
            (Some("room"), Some("out"), Some(size)) => self.room = size.parse::<u32>().ok(),
            (Some("room"), Some("err"), Some(size)) => self.error_room = size.parse::<u32>().ok(),
            (Some("room"), Some("files"), Some(size)) => self.file_room = size.parse::<u32>().ok(),
            (Some("fail"), Some(where_), Some(number)) => {
                let Ok(number) = number.parse::<u32>() else {
                    return Ok(None);
                };
                match where_ {
                    "read" => self.unread.push(number)?,
                    "out" => self.unwritten.push(number)?,
                    "err" => self.untold.push(number)?,
                    _ => return Ok(None),
                }
            }
            (Some(word), _, _) if word.starts_with('#') => {}
            _ => return Ok(None),
        }
        Ok(Some(()))
    }

    /// Takes the blank line off that stands before the next case.
    pub fn end(&mut self) {
        if let Some(section) = self.sections.as_mut_slice().last_mut() {
            if section.lines.as_slice().last() == Some(&"") {
                let _blank = section.lines.pop();
            }
        }
    }
}

/// What stands between the hyphens of a section's first line.
fn heading_of(line: &str) -> Option<&str> {
    line.strip_prefix("-- ")?.strip_suffix(" --")
}
