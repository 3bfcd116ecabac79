//! The command of `clap`, and the command line that is read off its matches.

ghost use Rattle.std.specs.Prelude.{◌≡◌, List, Option, Some, true, false, IfErr, IfOk, IfSome, map, string_bytes, option_map, codes};
ghost use Rattle.clap.specs.{Words.{app_of, kind_of, takes, rows_of, found_of, first_of, one_of, subcommand_rows_of, subcommand_of, with_rule}, declared.builder.command.Command.TheViews.{out-Command}};
ghost use Rattle.swreq_words.specs.{Taken.{bare, genreq, leaf_of, limit_rule, number_rule, trace_rule, with_leaf, with_options, with_parts}, Found.{HasLimits, count_found, fields_of, is_true, limit_found, line_found, line_of}};

use crate::command::{COMMANDS, Command, CommandLine, Follows};
use crate::limits::{Limit, PRESET_COUNT};
use crate::numbers::number_of;
use clap::error::ErrorKind;
use clap::{Arg, ArgAction, ArgMatches};
use std::alloc::{AllocError, Global};

// The command with the option that sets this limit.
fn with_limit<'a>(
    alloc: Global,
    command: clap::Command<'a>,
    limit: Limit,
) -> Result<clap::Command<'a>, AllocError>
    ensures app { IfOk result
        (λ c. app_of c ≡ with_rule (app_of command.entry) (limit_rule limit)) }
    ensures globals { IfOk result
        (λ c. (out-Command c).has_globals ≡ (out-Command command.entry).has_globals) }
{
    let option = Arg::new(alloc, limit.name()).long(limit.name());
    command.arg(option)
}

// The command with the option that asks for the trace.
fn with_trace<'a>(
    alloc: Global,
    command: clap::Command<'a>,
) -> Result<clap::Command<'a>, AllocError>
    ensures app { IfOk result (λ c. app_of c ≡ with_rule (app_of command.entry) trace_rule) }
    ensures globals { IfOk result
        (λ c. (out-Command c).has_globals ≡ (out-Command command.entry).has_globals) }
{
    let option = Arg::new(alloc, "trace")
        .long("trace")
        .action(ArgAction::SetTrue);
    command.arg(option)
}

// The command with the options that may follow it.
fn with_options<'a>(
    alloc: Global,
    command: clap::Command<'a>,
) -> Result<clap::Command<'a>, AllocError>
    ensures app { IfOk result (λ c. app_of c ≡ with_options (app_of command.entry)) }
    ensures globals { IfOk result
        (λ c. (out-Command c).has_globals ≡ (out-Command command.entry).has_globals) }
{
    let command = with_limit(alloc, command, Limit::MaxRules)?;
    let command = with_limit(alloc, command, Limit::MaxLength)?;
    with_trace(alloc, command)
}

// The command with its number.
fn with_number<'a>(
    alloc: Global,
    command: clap::Command<'a>,
) -> Result<clap::Command<'a>, AllocError>
    ensures app { IfOk result (λ c. app_of c ≡ with_rule (app_of command.entry) number_rule) }
    ensures globals { IfOk result
        (λ c. (out-Command c).has_globals ≡ (out-Command command.entry).has_globals) }
{
    let number = Arg::new(alloc, "number").required(true);
    command.arg(number)
}

// The command with what may follow it.
fn with_parts<'a>(
    alloc: Global,
    command: clap::Command<'a>,
    follows: Follows,
) -> Result<clap::Command<'a>, AllocError>
    ensures app { IfOk result (λ c. app_of c ≡ with_parts follows (app_of command.entry)) }
    ensures globals { IfOk result
        (λ c. (out-Command c).has_globals ≡ (out-Command command.entry).has_globals) }
{
    match follows {
        Follows::Nothing => Ok(command),
        Follows::Options => with_options(alloc, command),
        Follows::OptionsAndNumber => with_number(alloc, with_options(alloc, command)?),
    }
}

// The subcommand of a command.
fn leaf<'a>(alloc: Global, of: Command) -> Result<clap::Command<'a>, AllocError>
    ensures app { IfOk result (λ c. app_of c ≡ leaf_of of) }
    ensures globals { IfOk result (λ c. (out-Command c).has_globals ≡ false) }
{
    let command = clap::Command::new(alloc, of.word());
    with_parts(alloc, command, of.follows())
}

// The command without its subcommands.
fn bare<'a>(alloc: Global) -> clap::Command<'a>
    ensures { app_of result ≡ bare }
{
    clap::Command::new(alloc, "genreq")
        .subcommand_required(true)
        .no_binary_name(true)
}

// The whole command with one subcommand more.
fn with_leaf<'a>(
    alloc: Global,
    command: clap::Command<'a>,
    of: Command,
) -> Result<clap::Command<'a>, AllocError>
    ensures { IfOk result (λ c. app_of c ≡ with_leaf (app_of command.entry) of) }
{
    let leaf = leaf(alloc, of)?;
    command.subcommand(leaf)
}

// The whole command.
fn genreq<'a>(alloc: Global) -> Result<clap::Command<'a>, AllocError>
    ensures { IfOk result (λ c. app_of c ≡ genreq) }
{
    let mut command = bare(alloc);
    for of in COMMANDS {
        command = with_leaf(alloc, command, of)?;
    }
    Ok(command)
}

/// What the command finds in the words. If it takes them, it fails only if memory runs out.
pub(crate) fn matches_of<'a>(
    alloc: Global,
    words: &'a [String],
) -> Result<ArgMatches<'a>, clap::Error>
    ensures found { IfOk result
        (λ m. subcommand_rows_of m ≡ subcommand_of genreq (map string_bytes words.now)) }
    ensures memory { IfErr result (λ e.
        takes genreq (map string_bytes words.now) ≡ true → kind_of e ≡ ErrorKind.OutOfMemory) }
{
    let command = genreq(alloc)?;
    command.try_get_matches_from(words)
}

// The text that was found for this.
fn text_found<'a>(matches: &ArgMatches<'a>, what: &str) -> Option<&'a str>
    ensures { option_map (λ text. text.now) result
        ≡ first_of what.now (rows_of (found_of matches.now)) }
{
    matches.get_str(what)
}

// The number of the limit.
fn limit_found(matches: &ArgMatches<'_>, limit: Limit) -> u32
    ensures { result ≡ limit_found limit (rows_of (found_of matches.now)) }
{
    match text_found(matches, limit.name()) {
        Some(text) => number_of(text),
        None => limit.preset(),
    }
}

// Whether the trace is set, or has its default.
fn trace_found(matches: &ArgMatches<'_>) -> bool
    ensures { result ≡ is_true (first_of (codes "trace") (rows_of (found_of matches.now))) }
{
    match text_found(matches, "trace") {
        Some(text) => text == "true",
        None => false,
    }
}

// The number of the command.
fn count_found(matches: &ArgMatches<'_>) -> u32
    ensures { result ≡ count_found (rows_of (found_of matches.now)) }
{
    match text_found(matches, "number") {
        Some(text) => number_of(text),
        None => PRESET_COUNT,
    }
}

fn line_of(command: Command, matches: &ArgMatches<'_>) -> CommandLine
    requires { HasLimits (rows_of (found_of matches.now)) }
    ensures { fields_of result ≡ line_of command (rows_of (found_of matches.now)) }
{
    CommandLine {
        command,
        count: count_found(matches),
        max_rules: limit_found(matches, Limit::MaxRules),
        max_length: limit_found(matches, Limit::MaxLength),
        trace: trace_found(matches),
    }
}

/// The command line that is read off what the command found.
pub(crate) fn line_found(matches: &ArgMatches<'_>) -> Option<CommandLine>
    requires { IfSome (subcommand_rows_of matches.now) (λ found. HasLimits found.1) }
    ensures { option_map fields_of result ≡ line_found (subcommand_rows_of matches.now) }
{
    let (word, inner) = matches.subcommand()?;
    let command = Command::of(word)?;
    Some(line_of(command, inner))
}
