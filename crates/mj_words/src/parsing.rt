//! The words of each command as clap reads them. The first word is the command, and stands where clap has the name of a
//! program.

ghost use Rattle.std.specs.Prelude.{◌≡◌, ℕ, List, true, map, codes, option_map, IfOk};
ghost use Rattle.std.specs.String.{string_bytes};
ghost use Rattle.clap.specs.Words.{App, app_of, found_of, is_simple_and_free, matched_of, raw_values};
ghost use Rattle.mj_words.specs.Lines.{seat_line, serve_line, tables_line, replay_line, hand_line, self_play_line, observe_line, option_wanted, option_or, flag, is_taken, value_in, values_in};
ghost use Rattle.mj_words.specs.Inner.Parsing.{Reads, Says, HasServeWords, HasTablesWords, with_settings};

use clap::error::ErrorKind;
use clap::{Arg, ArgAction, ArgMatches, Command};
use std::alloc::{AllocError, Global};

/// The word of the seat after a command; none where clap refuses the words.
pub(crate) fn seat_word<'a>(
    alloc: Global,
    name: &'a str,
    words: &'a [String],
) -> Result<Option<&'a str>, AllocError>
    ensures { IfOk result (λ word. option_map (λ w. w.now) word
        ≡ value_in (seat_line name.now) (codes "seat") (map string_bytes words.now)) }
{
    let seat = Arg::new(alloc, "seat").required(true);
    let found = parse(Command::new(alloc, name).arg(seat)?, words)?;
    Ok(value_of(&found, "seat"))
}

/// The words of the options that `serve` and `tables` have in common, and of their flags, each where clap takes the words.
#[derive(Clone, Copy)]
pub(crate) struct ServeWords<'a> {
    pub seed: Option<&'a str>,
    pub limit: Option<&'a str>,
    pub port: Option<&'a str>,
    pub draws: Option<&'a str>,
    pub red: Option<&'a str>,
}

/// The words of the options and of the flags after `serve`.
pub(crate) fn serve_words<'a>(
    alloc: Global,
    words: &'a [String],
) -> Result<ServeWords<'a>, AllocError>
    ensures { IfOk result (λ found. HasServeWords serve_line found (map string_bytes words.now)) }
{
    let found = parse(serve_command(alloc)?, words)?;
    Ok(options_of(&found))
}

/// The words of the options and of the flags after `tables`, each where clap takes the words.
#[derive(Clone, Copy)]
pub(crate) struct TablesWords<'a> {
    pub rooms: Option<&'a str>,
    pub serving: ServeWords<'a>,
}

/// The words of the options and of the flags after `tables`.
pub(crate) fn tables_words<'a>(
    alloc: Global,
    words: &'a [String],
) -> Result<TablesWords<'a>, AllocError>
    ensures { IfOk result (λ found. HasTablesWords found (map string_bytes words.now)) }
{
    let found = parse(tables_command(alloc)?, words)?;
    Ok(TablesWords {
        rooms: value_of(&found, "rooms"),
        serving: options_of(&found),
    })
}

// The command `serve` with its options.
fn serve_command<'a>(alloc: Global) -> Result<Command<'a>, AllocError>
    ensures { IfOk result (λ command. app_of command ≡ serve_line) }
{
    let command = Command::new(alloc, "serve").arg(option_wanted(alloc, "seed"))?;
    with_settings(alloc, command)
}

// The command `tables` with its options.
fn tables_command<'a>(alloc: Global) -> Result<Command<'a>, AllocError>
    ensures { IfOk result (λ command. app_of command ≡ tables_line) }
{
    let command = Command::new(alloc, "tables")
        .arg(option_wanted(alloc, "seed"))?
        .arg(option_wanted(alloc, "rooms"))?;
    with_settings(alloc, command)
}

// A command with the options that `serve` and `tables` end with.
fn with_settings<'a>(alloc: Global, command: Command<'a>) -> Result<Command<'a>, AllocError>
    ensures { IfOk result (λ full. app_of full ≡ with_settings (app_of command.entry)) }
{
    command
        .arg(option_or(alloc, "limit", "10000"))?
        .arg(option_or(alloc, "port", "11600"))?
        .arg(flag(alloc, "draws"))?
        .arg(flag(alloc, "red"))
}

// An option with one value after its name, which must be there.
fn option_wanted<'a>(alloc: Global, name: &'a str) -> Arg<'a>
    ensures { Reads result (option_wanted name.now) }
{
    Arg::new(alloc, name).long(name).required(true)
}

// An option with one value after its name, which has a value of its own where it is left out.
fn option_or<'a>(alloc: Global, name: &'a str, value: &'a str) -> Arg<'a>
    ensures { Reads result (option_or name.now value.now) }
{
    Arg::new(alloc, name).long(name).default_value(value)
}

// A name that has no value after it.
fn flag<'a>(alloc: Global, name: &'a str) -> Arg<'a>
    ensures { Reads result (flag name.now) }
{
    Arg::new(alloc, name).long(name).action(ArgAction::SetTrue)
}

/// Whether clap takes the words after `replay`.
pub(crate) fn takes_replay(alloc: Global, words: &[String]) -> Result<bool, AllocError>
    ensures { IfOk result (λ taken. taken ≡ is_taken replay_line (map string_bytes words.now)) }
{
    let command = Command::new(alloc, "replay");
    Ok(parse(command, words)?.is_some())
}

/// Whether clap takes the words after `observe`.
pub(crate) fn takes_observe(alloc: Global, words: &[String]) -> Result<bool, AllocError>
    ensures { IfOk result (λ taken. taken ≡ is_taken observe_line (map string_bytes words.now)) }
{
    let command = Command::new(alloc, "observe");
    Ok(parse(command, words)?.is_some())
}

/// The words of the hand after `hand`; none where clap refuses the words.
pub(crate) fn hand_words(alloc: Global, words: &[String]) -> Result<Option<Vec<String>>, AllocError>
    ensures { IfOk result (λ found. option_map (λ f. map string_bytes f.items) found
        ≡ values_in hand_line (codes "words") (map string_bytes words.now)) }
{
    let several = Arg::new(alloc, "words").required(true).num_args(1..);
    let command = Command::new(alloc, "hand").arg(several)?;
    match parse(command, words)? {
        Some(matches) => all_words(alloc, &matches),
        None => Ok(None),
    }
}

/// The word of the number after `selfplay`; none where clap refuses the words.
#[tactic(auto, unfolding(crate::specs::Lines::self_play_line))]
pub(crate) fn number_word<'a>(
    alloc: Global,
    words: &'a [String],
) -> Result<Option<&'a str>, AllocError>
    ensures { IfOk result (λ word. option_map (λ w. w.now) word
        ≡ value_in self_play_line (codes "n") (map string_bytes words.now)) }
{
    let number = Arg::new(alloc, "n").required(true);
    let found = parse(Command::new(alloc, "selfplay").arg(number)?, words)?;
    Ok(value_of(&found, "n"))
}

// What a command of clap reads in words; none where it refuses them.
fn parse<'a>(
    command: Command<'a>,
    words: &'a [String],
) -> Result<Option<ArgMatches<'a>>, AllocError>
    requires { is_simple_and_free (app_of command) ≡ true }
    ensures { IfOk result (λ found. Says (app_of command.entry) (map string_bytes words.now) found) }
{
    match command.try_get_matches_from(words) {
        Ok(matches) => Ok(Some(matches)),
        Err(error) => {
            if error.kind() == ErrorKind::OutOfMemory {
                return Err(AllocError);
            }
            Ok(None)
        }
    }
}

// The words of the options that `serve` and `tables` have in common, and of their flags, in what clap says of some words.
fn options_of<'a>(found: &Option<ArgMatches<'a>>) -> ServeWords<'a>
    ensures { (line : App) (words : List (List ℕ)) → Says line words found.now
        → HasServeWords line result words }
{
    ServeWords {
        seed: value_of(found, "seed"),
        limit: value_of(found, "limit"),
        port: value_of(found, "port"),
        draws: value_of(found, "draws"),
        red: value_of(found, "red"),
    }
}

// The value of an argument in what clap says of some words; none where it refuses them.
fn value_of<'a>(found: &Option<ArgMatches<'a>>, name: &str) -> Option<&'a str>
    ensures { (line : App) (words : List (List ℕ)) → Says line words found.now
        → option_map (λ w. w.now) result ≡ value_in line name.now words }
{
    match found {
        Some(matches) => matches.get_str(name),
        None => None,
    }
}

// Copies of all words of a hand that clap found.
fn all_words(alloc: Global, matches: &ArgMatches<'_>) -> Result<Option<Vec<String>>, AllocError>
    ensures { IfOk result (λ found. option_map (λ f. map string_bytes f.items) found
        ≡ option_map raw_values (matched_of (found_of matches.now) (codes "words"))) }
{
    match matches.get_strs("words") {
        Some(values) => Ok(Some(copies(alloc, values)?)),
        None => Ok(None),
    }
}

// Copies of texts.
fn copies(alloc: Global, texts: &[&str]) -> Result<Vec<String>, AllocError>
    ensures { IfOk result (λ copied. map string_bytes copied.items ≡ map (λ t. t.now) texts.now) }
{
    let mut copied = Vec::new(alloc);
    for text in texts {
        copied.push((*text).to_string(alloc)?)?;
    }
    Ok(copied)
}
