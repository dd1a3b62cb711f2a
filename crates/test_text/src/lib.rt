//! Examples of texts that are read and printed: files, tokens, the words of a command, logs, formulas and certificates,
//! with answers by hand. It holds tests alone.
#![tactic(auto)]

#[cfg(test)]
mod certificates;
#[cfg(test)]
mod command_words;
#[cfg(test)]
mod formulas;
#[cfg(test)]
mod logs;
#[cfg(test)]
mod outside;
#[cfg(test)]
mod tokens;
