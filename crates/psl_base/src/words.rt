// The words that a program was started with.
use crate::items::NoMemory;
use std::env;
use std::env::Env;
use std::io::ErrorKind;

/// The words after the program's name; none where they are not all text.
///
/// # Errors
///
/// `NoMemory` if memory is refused.
pub fn program_words(rt: &(impl Env + AllocGlobal)) -> Result<Vec<String>, NoMemory> {
    let mut words = Vec::new(rt.alloc());
    match env::args(rt) {
        Ok(args) => {
            for word in args.skip(1) {
                if words.push(word).is_err() {
                    return Err(NoMemory);
                }
            }
            Ok(words)
        }
        Err(error) if error.kind() == ErrorKind::OutOfMemory => Err(NoMemory),
        Err(_) => Ok(words),
    }
}
