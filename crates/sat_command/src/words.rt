// What the words after the program's name ask for.
ghost use Rattle.std.specs.Prelude.{◌≡◌, map, codes, string_bytes};
ghost use Rattle.std.specs.Option.{option_map};
ghost use Rattle.std.specs.Str.{bytes_eq};
ghost use Rattle.psl_base.specs.Decimals.{plain_upto};
ghost use Rattle.sat_command.specs.Requests as spec;

use psl_base::plain_decimal;

/// What `sat FILE [--steps N] [--log FILE]` asks for.
#[derive(Clone, Copy, Drop)]
pub struct Request<'a> {
    /// The file of the formula.
    pub file: &'a str,
    /// How many lemmas may be learned, where that is limited.
    pub steps: Option<u64>,
    /// The file that the log is to be written to.
    pub log: Option<&'a str>,
}

/// What words ask for. None where they are not `FILE`, with `--steps N` or `--log FILE` or both behind it, in any order.
/// The number is decimal, without leading zeros, and at most 2^64 - 1.
pub fn request_of<'a>(words: &'a [String]) -> Option<Request<'a>>
    ensures { option_map spec.asked_by result ≡ spec.request_of (map string_bytes words.now) }
{
    match words {
        [] => None,
        [file] => Some(Request {
            file,
            steps: None,
            log: None,
        }),
        [_, _] => None,
        [file, name, value] => with_option(file, name, value),
        [_, _, _, _] => None,
        [file, name, value, other, second] => with_options(file, name, value, other, second),
        [_, _, _, _, _, _, ..] => None,
    }
}

fn with_option<'a>(file: &'a str, name: &str, value: &'a str) -> Option<Request<'a>>
    ensures { option_map spec.asked_by result ≡ spec.with_option file.now name.now value.now }
{
    if name == "--steps" {
        return with_steps(file, value, None);
    }
    if name == "--log" {
        return Some(Request {
            file,
            steps: None,
            log: Some(value),
        });
    }
    None
}

fn with_options<'a>(
    file: &'a str,
    name: &str,
    value: &'a str,
    other: &str,
    second: &'a str,
) -> Option<Request<'a>>
    ensures { option_map spec.asked_by result ≡ spec.with_options file.now name.now value.now other.now second.now }
{
    if name == "--steps" && other == "--log" {
        return with_steps(file, value, Some(second));
    }
    if name == "--log" && other == "--steps" {
        return with_steps(file, second, Some(value));
    }
    None
}

fn with_steps<'a>(file: &'a str, steps: &str, log: Option<&'a str>) -> Option<Request<'a>>
    ensures { option_map spec.asked_by result ≡ spec.with_steps file.now steps.now (option_map (λ name. name.now) log.entry) }
{
    let steps = plain_decimal(u64::MAX, steps.as_bytes())?;
    Some(Request {
        file,
        steps: Some(steps),
        log,
    })
}
