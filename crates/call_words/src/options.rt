//! The words behind a command, read by `clap` behind a test of single words.
ghost use Rattle.std.specs.Prelude.{◌≡◌, ◌⊎◌, true, false, map, string_bytes, [], None, codes, option_map, IfOk, IfErr};
ghost use Rattle.std.specs.List.{list_any};
ghost use Rattle.call_words.specs.Uses.{is_barred, takes_words, takes_call, serial_names, value_in};
ghost use Rattle.call_words.specs.Calls.{option_text};
ghost use Rattle.call_words.specs.InsideAsked.{GivesOptions, IsStopped, WantsBehindTest};
ghost use Rattle.clap.specs.Words.{first_value, found_of, kind_of};

use crate::fault::{CallFault, OptionName, WordsFault};
use clap::error::ErrorKind;
use clap::{Arg, ArgAction, ArgMatches, Command, Error};
use std::alloc::Global;

/// The values of the options of `serial`.
#[derive(Clone, Copy)]
pub struct SerialOptions<'a> {
    pub stripes: Option<&'a str>,
    pub faults: Option<&'a str>,
}

/// A word that no command takes anywhere.
fn is_barred(word: &[u8]) -> bool
    ensures { result ≡ is_barred word.now }
{
    let count = word.len();
    if count == 0 {
        return false;
    }
    let stray = word[0] == b'-' && (count < 3 || word[1] != b'-');
    stray || word[count - 1] == b'='
}

fn has_barred(words: &[String]) -> bool
    ensures { result ≡ list_any (λ w. is_barred (string_bytes w)) words.now }
{
    words.iter().any(|word| is_barred(word.as_bytes()))
}

/// What `clap` makes of words none of which is barred.
fn parse<'a>(alloc: Global, words: &'a [String]) -> Result<ArgMatches<'a>, Error>
    requires { list_any (λ w. is_barred (string_bytes w)) words.now ≡ false }
    ensures taken { IfOk result (λ _. takes_words serial_names [] false (map string_bytes words.entry.now) ≡ true) }
    ensures refused { IfErr result (λ e. (kind_of e ≡ ErrorKind.OutOfMemory)
        ⊎ (takes_words serial_names [] false (map string_bytes words.entry.now) ≡ false)) }
    ensures stripes { IfOk result (λ m. first_value (found_of m) (codes "stripes")
        ≡ value_in serial_names (codes "stripes") None (map string_bytes words.entry.now)) }
    ensures faults { IfOk result (λ m. first_value (found_of m) (codes "faults")
        ≡ value_in serial_names (codes "faults") None (map string_bytes words.entry.now)) }
{
    let stripes = Arg::new(alloc, "stripes")
        .long("stripes")
        .action(ArgAction::Set);
    let faults = Arg::new(alloc, "faults")
        .long("faults")
        .action(ArgAction::Set);
    let command = Command::new(alloc, "serial")
        .no_binary_name(true)
        .disable_help_flag(true)
        .disable_version_flag(true)
        .disable_help_subcommand(true)
        .arg(stripes)?
        .arg(faults)?;
    command.try_get_matches_from(words)
}

/// The options among the words behind `serial`.
pub fn serial_options<'a>(
    alloc: Global,
    words: &'a [String],
) -> Result<SerialOptions<'a>, CallFault>
    ensures taken { IfOk result (GivesOptions (map string_bytes words.entry.now)) }
    ensures stop { IfErr result (IsStopped (takes_call serial_names (map string_bytes words.entry.now))) }
    ensures memory { IfErr result (WantsBehindTest (map string_bytes words.entry.now)) }
{
    if has_barred(words) {
        return Err(CallFault::Refused(WordsFault::Words));
    }
    match parse(alloc, words) {
        Ok(matches) => Ok(SerialOptions {
            stripes: matches.get_str("stripes"),
            faults: matches.get_str("faults"),
        }),
        Err(error) => match error.kind() {
            ErrorKind::OutOfMemory => Err(CallFault::OutOfMemory),
            _ => Err(CallFault::Refused(WordsFault::Words)),
        },
    }
}
