ghost use Rattle.std.specs.Prelude.{◌≡◌, ◌≢◌, ◌⊎◌, true, false, [], ◌++◌, map, string_bytes, IfOk, IfErr, OnOk};
ghost use Rattle.program_words.specs.CommandLine.{plain_words, has_flag};
ghost use Rattle.program_words.specs.Found.{IsFound, Fails, words_in};
ghost use Rattle.clap.specs.Walk.{rows_of};
ghost use Rattle.clap.specs.Words.{found_of, kind_of};
ghost use Rattle.program_words.specs.declared.errors.WordsError.{WordsError};

use crate::errors::WordsError;
use clap::error::ErrorKind;
use clap::{Arg, ArgAction, ArgMatches, Command, Error};
use std::alloc::Global;

/// The command and its operands.
///
/// `Refused` comes exactly where a word before the first `--` begins with a hyphen and has a second byte,
/// or where no word is left beside that `--`.
pub(crate) fn read_words<'a>(alloc: Global, words: &'a [String]) -> Result<Vec<&'a str>, WordsError>
    ensures words { IfOk result (λ read. map (λ word. word.now) read.items ≡ plain_words (map string_bytes words.now)) }
    ensures accepted { IfOk result (λ read. (has_flag (map string_bytes words.now) ≡ false)
        × (plain_words (map string_bytes words.now) ≢ [])) }
    ensures refused { result ≡ Err WordsError.Refused → (has_flag (map string_bytes words.now) ≡ true)
        ⊎ (plain_words (map string_bytes words.now) ≡ []) }
{
    match parse(alloc, words) {
        Ok(matches) => list(alloc, &matches),
        Err(error) if error.kind() == ErrorKind::OutOfMemory => Err(WordsError::NoMemory),
        Err(_) => Err(WordsError::Refused),
    }
}

/// What `clap` makes of the words.
fn parse<'a>(alloc: Global, words: &'a [String]) -> Result<ArgMatches<'a>, Error>
    ensures found { IfOk result (λ matches. IsFound (map string_bytes words.now) (rows_of (found_of matches))) }
    ensures fails { IfErr result (λ error. Fails (map string_bytes words.now) (kind_of error)) }
{
    let word = Arg::new(alloc, "command")
        .required(true)
        .action(ArgAction::Set);
    let operands = Arg::new(alloc, "operand").action(ArgAction::Append);
    let command = Command::new(alloc, "chart")
        .no_binary_name(true)
        .disable_help_flag(true)
        .disable_version_flag(true)
        .arg(word)?
        .arg(operands)?;
    command.try_get_matches_from(words)
}

/// The command and the operands that were found.
fn list<'a>(alloc: Global, matches: &ArgMatches<'a>) -> Result<Vec<&'a str>, WordsError>
    ensures words { IfOk result (λ read. map (λ word. word.now) read.items ≡ words_in (rows_of (found_of matches.now))) }
    ensures memory { IfErr result (λ error. error ≡ WordsError.NoMemory) }
{
    let mut list = Vec::new(alloc);
    if let Some(word) = matches.get_str("command") {
        list.push(word)?;
    }
    if let Some(operands) = matches.get_strs("operand") {
        push_all(&mut list, operands)?;
    }
    Ok(list)
}

/// Puts words behind a list.
fn push_all<'a>(list: &mut Vec<&'a str>, words: &[&'a str]) -> Result<(), WordsError>
    ensures items { OnOk result (list.new.items ≡ list.old.items ++ words.now) }
    ensures memory { IfErr result (λ error. error ≡ WordsError.NoMemory) }
{
    for word in words {
        list.push(*word)?;
    }
    Ok(())
}
