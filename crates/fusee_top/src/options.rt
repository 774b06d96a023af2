//! Options of a command: each once and in any order, as `--name value` or `--name=value`.

ghost use Rattle.std.specs.Prelude.{◌≡◌, ◌≤◌, IfOk, false, length, map, true};
ghost use Rattle.std.specs.Str.Parse.{digits_value};
ghost use Rattle.std.specs.String.{string_bytes};
ghost use Rattle.clap.specs.Words.{app_of, first_of, found_of, rows_of, rule_of};
ghost use Rattle.text_lines.specs.Number.{are_digits};
ghost use Rattle.fusee_top.specs.Options.{Collects, IsMatched, IsRead, has_dashes, is_dashes, option_rule, option_values, options_app, value_in, value_of, values_after};
ghost use Rattle.fusee_top.specs.declared.options.Misread.TheVariants.{NoMemory};

use clap::error::ErrorKind;
use clap::{Arg, ArgAction, ArgMatches, Command};
use std::alloc::{AllocError, AllocFailed, Global};

// The most digits of a value.
const MOST_DIGITS: usize = 20;

/// Why words are not read as options.
#[derive(Clone, Copy, Debug, PartialEq, Eq)]
pub enum Misread {
    /// They have another form.
    Form,
    NoMemory,
}

impl From<AllocError> for Misread {
    ghost from_gives = { λ _ misread. misread ≡ NoMemory };

    fn from(_error: AllocError) -> Misread {
        Misread::NoMemory
    }
}

impl<T: Drop> From<AllocFailed<T>> for Misread {
    ghost from_gives = { λ _ misread. misread ≡ NoMemory };

    fn from(_error: AllocFailed<T>) -> Misread {
        Misread::NoMemory
    }
}

/// The values that the words give the options of these names, in the order of the names.
pub fn option_values<'a>(
    alloc: Global,
    names: &'a [&'a str],
    words: &'a [String],
) -> Result<Vec<u64>, Misread>
    ensures { IsRead result (option_values (map (λ name. name.now) names.now) (map string_bytes words.now)) }
{
    if has_dashes(words) {
        return Err(Misread::Form);
    }
    let matches = matches_of(alloc, names, words)?;
    let mut values = Vec::new(alloc);
    gather_values(&mut values, &matches, names)?;
    Ok(values)
}

// Whether a word is `--`, which would end the options.
fn has_dashes(words: &[String]) -> bool
    ensures { result ≡ has_dashes (map string_bytes words.now) }
{
    for word in words {
        if is_dashes(word) {
            return true;
        }
    }
    false
}

fn is_dashes(word: &String) -> bool
    ensures { result ≡ is_dashes (string_bytes word.now) }
{
    word.as_str() == "--"
}

fn matches_of<'a>(
    alloc: Global,
    names: &'a [&'a str],
    words: &'a [String],
) -> Result<ArgMatches<'a>, Misread>
    ensures { IsMatched result (map (λ name. name.now) names.now) (map string_bytes words.now) }
{
    let command = options(alloc, names)?;
    match command.try_get_matches_from(words) {
        Ok(matches) => Ok(matches),
        Err(error) => match error.kind() {
            ErrorKind::OutOfMemory => Err(Misread::NoMemory),
            _ => Err(Misread::Form),
        },
    }
}

// A command that takes these options, and nothing else.
fn options<'a>(alloc: Global, names: &'a [&'a str]) -> Result<Command<'a>, AllocError>
    ensures { IfOk result (λ command. app_of command ≡ options_app (map (λ name. name.now) names.now)) }
{
    let mut command = Command::new(alloc, "options")
        .no_binary_name(true)
        .disable_help_flag(true);
    for name in names {
        command = command.arg(option(alloc, name))?;
    }
    Ok(command)
}

fn option<'a>(alloc: Global, name: &'a str) -> Arg<'a>
    ensures rule { rule_of result ≡ option_rule name.now }
    ensures local { result.global ≡ false }
{
    Arg::new(alloc, name)
        .long(name)
        .required(true)
        .action(ArgAction::Set)
}

// Adds the values of these options.
fn gather_values(
    values: &mut Vec<u64>,
    matches: &ArgMatches<'_>,
    names: &[&str],
) -> Result<(), Misread>
    ensures { Collects values.new.items result
        (values_after values.old.items (rows_of (found_of matches.now)) (map (λ name. name.now) names.now)) }
{
    let Some((name, names)) = names.split_first() else {
        return Ok(());
    };
    let Some(value) = value_in(matches, *name) else {
        return Err(Misread::Form);
    };
    values.push(value)?;
    gather_values(values, matches, names)
}

fn value_in(matches: &ArgMatches<'_>, name: &str) -> Option<u64>
    ensures { result ≡ value_in (first_of name.now (rows_of (found_of matches.now))) }
{
    match matches.get_str(name) {
        Some(text) => value_of(text.as_bytes()),
        None => None,
    }
}

// The number that 1 to 20 digits write, below 2^64.
fn value_of(digits: &[u8]) -> Option<u64>
    ensures { result ≡ value_of digits.now }
{
    if digits.is_empty() {
        return None;
    }
    if digits.len() > MOST_DIGITS {
        return None;
    }
    if !are_digits(digits) {
        return None;
    }
    u64::try_from(number_of(digits)).ok()
}

fn number_of(digits: &[u8]) -> u128
    requires digits { are_digits digits.now ≡ true }
    requires few { length digits.now ≤ 20 }
    ensures { result ≡ digits_value 10 digits.now }
{
    let mut value = 0;
    for digit in digits {
        value = value * 10 + u128::from(digit - b'0');
    }
    value
}

fn are_digits(bytes: &[u8]) -> bool
    ensures { result ≡ are_digits bytes.now }
{
    bytes.iter().all(|byte| byte.is_ascii_digit())
}
