// What no case says: how words are read that are empty. The others stand in `crates/cases/data/words`.
use command_line::{Command, Unknown, WordsFault, read_words};
use std::alloc::{AllocError, Global};
use std::test::Fail;

/// The limit on samples that the words are read with.
const MOST: u32 = 10_000;

/// Words with a space between each two.
fn words_of(alloc: Global, words: &str) -> Result<Vec<String>, AllocError> {
    let mut all = Vec::new(alloc);
    for word in words.split(' ') {
        all.push(String::from_str(alloc, word)?)?;
    }
    Ok(all)
}

#[test]
fn empty_words_are_names_of_files(rt: HostRuntime) -> Result<(), Fail> {
    let words = words_of(rt.alloc(), "wave  ")?;
    let command = read_words(rt.alloc(), words.as_slice(), MOST)?;
    let wanted = Command::Wave {
        unit: "",
        recording: "",
        unknown: Unknown::Zero,
        points: false,
    };
    assert_eq!(rt; command, wanted);
    Ok(())
}

#[test]
fn empty_words_are_no_numbers(rt: HostRuntime) -> Result<(), Fail> {
    for line in ["", "gen  1", "prove u n --depth "] {
        let words = words_of(rt.alloc(), line)?;
        let read = read_words(rt.alloc(), words.as_slice(), MOST);
        assert_eq!(rt; read, Err(WordsFault::Usage));
    }
    Ok(())
}
