//! The commands by which words are read.

ghost use Rattle.std.specs.Prelude.{◌≡◌, IfOk, codes, false, true};
ghost use Rattle.clap.specs.Words.{app_of, new_app, rule_of};
ghost use Rattle.clap.specs.declared.builder.command.Command.TheViews.{out-Command};
ghost use Rattle.command_line.specs.CommandLine.{asnc_app, bare_app, ber_app, choice_rule, files_rule, flag_rule};
ghost use Rattle.command_line.specs.CommandLine.{later_app, list_app, newer_rule, octcheck_app, show_app, text_rule, unper_app};
ghost use Rattle.command_line.specs.CommandLine.{value_app, written_app};
ghost use Rattle.command_line.specs.proving.Arguments.{app_for, rule_for, with_arguments, with_commands_of};

use crate::request::Verb;
use clap::{Arg, ArgAction, Command};
use std::alloc::{AllocError, Global};

/// The text at the end of the help.
const AFTER_HELP: &str = "\
Examples:
  asnc der --type M.T --value M.v m.asn
  asnc ber --type M.T --hex 020105 m.asn
  asnc uper --type M.T --notation 5 m.asn
  asnc unper --type M.T --hex 0105 m.asn
  asnc account --type M.T --value M.v m.asn
  asnc list m.asn
  asnc later --type M.T m.asn --newer n.asn
  asnc show --type M.T --hex 020105 m.asn

Exit status: 0 done, 1 no, or the texts, names, values or octets are refused, 2 a bad command line,
3 out of memory, or a file or a device failed. A refusal is one line, with its number and
its name; man asnc lists them.";

/// The text at the end of the help of `der`.
const DER_EXAMPLES: &str = "\
Examples:
  asnc der --type M.T --value M.v m.asn
  asnc der --type M.T --notation '{a 5, b TRUE}' m.asn
  asnc der --raw --type M.T --value M.v m.asn > v.der
  cat m.asn | asnc der --context --type M.T --value M.v -
  asnc der --lines --type M.T m.asn < values.txt

With --lines each line of standard input is a notation. Each is answered by one line, in order;
a line that is refused by ! and the fault, and the exit status is 1 then.";

/// The text at the end of the help of `ber`.
const BER_EXAMPLES: &str = "\
Examples:
  asnc ber --type M.T --hex 020105 m.asn
  asnc ber --strict --type M.T --hex @v.der m.asn
  asnc ber --lines --type M.T m.asn < messages.txt

With --lines each line of standard input is octets in hexadecimal. Each is answered by one line, in order:
the value, and -- skipped and a number if additions were skipped. A line that is refused is answered by ! and
the fault, and the exit status is 1 then.";

/// The text at the end of the help of `uper`.
const UPER_EXAMPLES: &str = "\
Examples:
  asnc uper --type M.T --value M.v m.asn
  asnc uper --type M.T --notation=-5 m.asn
  asnc uper --raw --type M.T --value M.v m.asn > v.per
  cat m.asn | asnc uper --context --type M.T --value M.v -
  asnc uper --lines --type M.T m.asn < values.txt

With --lines each line of standard input is a notation, as asnc der --help says.";

/// The text at the end of the help of `unper`.
const UNPER_EXAMPLES: &str = "\
Examples:
  asnc unper --type M.T --hex 0105 m.asn
  asnc uper --raw --type M.T --value M.v m.asn > v.per
  asnc unper --type M.T --hex @v.per m.asn
  asnc unper --lines --type M.T m.asn < messages.txt

With --lines each line of standard input is octets in hexadecimal, as asnc ber --help says.";

/// The text at the end of the help of `account`.
const ACCOUNT_EXAMPLES: &str = "\
Examples:
  asnc account --type M.T --value M.v m.asn
  asnc account --type M.T --value M.v m.asn > a.json";

/// The text at the end of the help of `list`.
const LIST_EXAMPLES: &str = "\
Examples:
  asnc list m.asn
  asnc list --context fleet.asn telemetry.asn";

/// The text at the end of the help of `later`.
const LATER_EXAMPLES: &str = "\
Examples:
  asnc later --type M.T m.asn --newer n.asn
  asnc later --type M.T a.asn b.asn --newer c.asn --newer d.asn

It prints yes, or no: with the first place that differs, and why. Items and alternatives
are numbered from 0 there. A later version only appends additions at extension markers.
Then each version decodes what the other encodes, if it has no alternatives and items
that the older one lacks.";

/// The text at the end of the help of `show`.
const SHOW_EXAMPLES: &str = "\
Examples:
  asnc show --type M.T --hex 020105 m.asn
  asnc show --type M.T --hex @v.der m.asn

Each header is a line, indented as it is nested: where it begins, its identifier and length octets, the component
and its type, and the value of what is primitive. Additions that the type lacks are marked. If the octets are
refused, the lines up to the fault come first, and then the refusal.";

/// The text at the end of the help of `octcheck`.
const CHECK_HELP: &str = "\
Examples:
  octcheck --type M.T --value M.v --hex 020105 --account a.json m.asn
  octcheck --type M.T --value M.v --hex @v.der --account a.json m.asn

It prints yes, or no and the first reason: NotOfType, Shape, Omitted, Numbers, Places, Length, Header or Contents.
After a yes no BER encoding of the value is shorter.

Exit status: 0 yes, 1 no, or the texts, names, value or account are refused, 2 a bad command line,
3 out of memory, or a file failed. A refusal is one line, with its number and its name; man octcheck lists them.";

/// An argument that a command takes.
#[derive(Clone, Copy)]
enum Argument {
    /// The name of a type.
    Type,
    /// The name of a type that older and newer modules have.
    TypeOfBoth,
    /// `--value`, which has to be given if `--notation` isn't.
    Value,
    /// `--notation`, which has to be given if `--value` isn't.
    Notation,
    /// The octets that are read or checked.
    Octets,
    /// The octets that are read, which have to be given if `--lines` isn't.
    OctetsOrLines,
    /// The file with an account.
    Account,
    /// The newer modules, once for each file, at least once.
    Newer,
    /// Whether lines of values are written.
    ValueLines,
    /// Whether lines of octets are read.
    OctetLines,
    /// Whether octets are written as they are.
    Raw,
    /// Whether DER alone is read.
    Strict,
    /// Whether the line of a fault in a text is shown.
    Context,
    /// The names of the files, at least one.
    Files,
}

/// What `der` and `uper` take.
const WRITTEN: [Argument; 7] = [
    Argument::Type,
    Argument::Value,
    Argument::Notation,
    Argument::ValueLines,
    Argument::Raw,
    Argument::Context,
    Argument::Files,
];

/// What `ber` takes.
const BER: [Argument; 6] = [
    Argument::Type,
    Argument::OctetsOrLines,
    Argument::OctetLines,
    Argument::Strict,
    Argument::Context,
    Argument::Files,
];

/// What `unper` takes.
const UNPER: [Argument; 5] = [
    Argument::Type,
    Argument::OctetsOrLines,
    Argument::OctetLines,
    Argument::Context,
    Argument::Files,
];

/// What `account` takes.
const ACCOUNT: [Argument; 5] = [
    Argument::Type,
    Argument::Value,
    Argument::Notation,
    Argument::Context,
    Argument::Files,
];

/// What `list` takes.
const LIST: [Argument; 2] = [Argument::Context, Argument::Files];

/// What `later` takes.
const LATER: [Argument; 4] = [
    Argument::TypeOfBoth,
    Argument::Newer,
    Argument::Context,
    Argument::Files,
];

/// What `show` takes.
const SHOW: [Argument; 4] = [
    Argument::Type,
    Argument::Octets,
    Argument::Context,
    Argument::Files,
];

/// What octcheck takes.
const CHECK: [Argument; 7] = [
    Argument::Type,
    Argument::Value,
    Argument::Notation,
    Argument::Octets,
    Argument::Account,
    Argument::Context,
    Argument::Files,
];

/// The commands of asnc, in the order in which its help shows them.
const COMMANDS: [Verb; 8] = [
    Verb::Der,
    Verb::Ber,
    Verb::Uper,
    Verb::Unper,
    Verb::Account,
    Verb::List,
    Verb::Later,
    Verb::Show,
];

/// What the help says of the octets that are read or checked.
const OCTETS: &str = "The octets in hexadecimal, or @ and the name of a file that holds them";

/// `--ID <SHOWN>`, which is optional.
fn choice_arg<'a>(alloc: Global, id: &'a str, shown: &'a str, help: &'a str) -> Arg<'a>
    ensures rule { rule_of result ≡ choice_rule id.entry.now }
    ensures local { result.global ≡ false }
{
    Arg::new(alloc, id)
        .long(id)
        .value_name(shown)
        .action(ArgAction::Set)
        .help(help)
}

/// `--ID <SHOWN>`, which is required.
fn text_arg<'a>(alloc: Global, id: &'a str, shown: &'a str, help: &'a str) -> Arg<'a>
    ensures rule { rule_of result ≡ text_rule id.entry.now }
    ensures local { result.global ≡ false }
{
    choice_arg(alloc, id, shown, help).required(true)
}

/// `--ID`, which is optional.
fn flag_arg<'a>(alloc: Global, id: &'a str, help: &'a str) -> Arg<'a>
    ensures rule { rule_of result ≡ flag_rule id.entry.now }
    ensures local { result.global ≡ false }
{
    Arg::new(alloc, id)
        .long(id)
        .action(ArgAction::SetTrue)
        .help(help)
}

/// The names of the files, at least one.
fn files_arg<'a>(alloc: Global) -> Arg<'a>
    ensures rule { rule_of result ≡ files_rule }
    ensures local { result.global ≡ false }
{
    Arg::new(alloc, "FILE")
        .required(true)
        .action(ArgAction::Append)
        .help("The modules' texts; - is standard input, once")
}

/// `--newer`, once for each file of the newer modules, at least once.
fn newer_arg<'a>(alloc: Global) -> Arg<'a>
    ensures rule { rule_of result ≡ newer_rule }
    ensures local { result.global ≡ false }
{
    let help = "A text of the newer modules; once for each; - is standard input, once";
    text_arg(alloc, "newer", "FILE", help).action(ArgAction::Append)
}

/// An argument with its words.
fn arg_of<'a>(alloc: Global, argument: Argument) -> Arg<'a>
    ensures rule { rule_of result ≡ rule_for argument }
    ensures local { result.global ≡ false }
{
    match argument {
        Argument::Type => text_arg(alloc, "type", "MODULE.TYPE", "The type"),
        Argument::TypeOfBoth => text_arg(alloc, "type", "MODULE.TYPE", "The type, in both"),
        Argument::Value => {
            let help = "The value, by its name; or else --notation";
            choice_arg(alloc, "value", "MODULE.VALUE", help)
        }
        Argument::Notation => {
            let help = "The value as modules write it, with the names of the type's module";
            choice_arg(alloc, "notation", "TEXT", help)
        }
        Argument::Octets => text_arg(alloc, "hex", "HEX", OCTETS),
        Argument::OctetsOrLines => choice_arg(alloc, "hex", "HEX", OCTETS),
        Argument::Account => {
            let help = "The file that holds the account, in JSON";
            text_arg(alloc, "account", "PATH", help)
        }
        Argument::Newer => newer_arg(alloc),
        Argument::ValueLines => {
            flag_arg(
                alloc,
                "lines",
                "Write each line of standard input, a notation",
            )
        }
        Argument::OctetLines => {
            flag_arg(
                alloc,
                "lines",
                "Read each line of standard input, in hexadecimal",
            )
        }
        Argument::Raw => flag_arg(alloc, "raw", "Write the octets themselves, not hexadecimal"),
        Argument::Strict => flag_arg(alloc, "strict", "Read DER alone"),
        Argument::Context => flag_arg(alloc, "context", "Show the line of a fault in a text, too"),
        Argument::Files => files_arg(alloc),
    }
}

/// A command without arguments. `examples` end its help.
fn bare_command<'a>(alloc: Global, name: &'a str, about: &'a str, examples: &'a str) -> Command<'a>
    ensures shape { app_of result ≡ new_app name.entry.now }
    ensures local { (out-Command result).has_globals ≡ false }
{
    Command::new(alloc, name).about(about).after_help(examples)
}

/// A command with more arguments, in order.
fn with_all<'a>(
    alloc: Global,
    command: Command<'a>,
    arguments: &[Argument],
) -> Result<Command<'a>, AllocError>
    ensures shape { IfOk result (λ c. app_of c ≡ with_arguments (app_of command.entry) arguments.now) }
    ensures local { IfOk result (λ c. (out-Command c).has_globals ≡ (out-Command command.entry).has_globals) }
{
    let mut whole = command;
    for argument in arguments {
        whole = whole.arg(arg_of(alloc, *argument))?;
    }
    Ok(whole)
}

fn der_command<'a>(alloc: Global) -> Result<Command<'a>, AllocError>
    ensures shape { IfOk result (λ c. app_of c ≡ written_app (codes "der")) }
    ensures local { IfOk result (λ c. (out-Command c).has_globals ≡ false) }
{
    let about = "Write the DER encoding of a value";
    with_all(
        alloc,
        bare_command(alloc, "der", about, DER_EXAMPLES),
        &WRITTEN,
    )
}

fn ber_command<'a>(alloc: Global) -> Result<Command<'a>, AllocError>
    ensures shape { IfOk result (λ c. app_of c ≡ ber_app) }
    ensures local { IfOk result (λ c. (out-Command c).has_globals ≡ false) }
{
    let about = "Read octets by BER, or by DER, as a value, and print it";
    with_all(alloc, bare_command(alloc, "ber", about, BER_EXAMPLES), &BER)
}

fn uper_command<'a>(alloc: Global) -> Result<Command<'a>, AllocError>
    ensures shape { IfOk result (λ c. app_of c ≡ written_app (codes "uper")) }
    ensures local { IfOk result (λ c. (out-Command c).has_globals ≡ false) }
{
    let about = "Write a value in canonical PER, unaligned";
    with_all(
        alloc,
        bare_command(alloc, "uper", about, UPER_EXAMPLES),
        &WRITTEN,
    )
}

fn unper_command<'a>(alloc: Global) -> Result<Command<'a>, AllocError>
    ensures shape { IfOk result (λ c. app_of c ≡ unper_app) }
    ensures local { IfOk result (λ c. (out-Command c).has_globals ≡ false) }
{
    let about = "Read octets of canonical PER, unaligned, as a value, and print it";
    with_all(
        alloc,
        bare_command(alloc, "unper", about, UNPER_EXAMPLES),
        &UNPER,
    )
}

fn account_command<'a>(alloc: Global) -> Result<Command<'a>, AllocError>
    ensures shape { IfOk result (λ c. app_of c ≡ value_app (codes "account")) }
    ensures local { IfOk result (λ c. (out-Command c).has_globals ≡ false) }
{
    let about = "Write how the DER encoding of a value is made up, header by header, in JSON";
    with_all(
        alloc,
        bare_command(alloc, "account", about, ACCOUNT_EXAMPLES),
        &ACCOUNT,
    )
}

fn list_command<'a>(alloc: Global) -> Result<Command<'a>, AllocError>
    ensures shape { IfOk result (λ c. app_of c ≡ list_app) }
    ensures local { IfOk result (λ c. (out-Command c).has_globals ≡ false) }
{
    let about = "List the types of modules, and the steps that write each";
    with_all(
        alloc,
        bare_command(alloc, "list", about, LIST_EXAMPLES),
        &LIST,
    )
}

fn later_command<'a>(alloc: Global) -> Result<Command<'a>, AllocError>
    ensures shape { IfOk result (λ c. app_of c ≡ later_app) }
    ensures local { IfOk result (λ c. (out-Command c).has_globals ≡ false) }
{
    let about = "Say whether a type of newer modules is a later version of that of older ones";
    with_all(
        alloc,
        bare_command(alloc, "later", about, LATER_EXAMPLES),
        &LATER,
    )
}

fn show_command<'a>(alloc: Global) -> Result<Command<'a>, AllocError>
    ensures shape { IfOk result (λ c. app_of c ≡ show_app) }
    ensures local { IfOk result (λ c. (out-Command c).has_globals ≡ false) }
{
    let about = "Read octets by BER, and show them header by header";
    with_all(
        alloc,
        bare_command(alloc, "show", about, SHOW_EXAMPLES),
        &SHOW,
    )
}

/// The program octcheck.
pub(crate) fn octcheck_command<'a>(alloc: Global) -> Result<Command<'a>, AllocError>
    ensures shape { IfOk result (λ c. app_of c ≡ octcheck_app) }
    ensures local { IfOk result (λ c. (out-Command c).has_globals ≡ false) }
{
    let about = "Check that octets are a shortest encoding of a value, by the account beside them";
    let program = bare_command(alloc, "octcheck", about, CHECK_HELP).version("0.1.0");
    with_all(alloc, program, &CHECK)
}

/// The command of a verb.
fn command_for<'a>(alloc: Global, verb: Verb) -> Result<Command<'a>, AllocError>
    ensures shape { IfOk result (λ c. app_of c ≡ app_for verb) }
    ensures local { IfOk result (λ c. (out-Command c).has_globals ≡ false) }
{
    match verb {
        Verb::Der => der_command(alloc),
        Verb::Ber => ber_command(alloc),
        Verb::Uper => uper_command(alloc),
        Verb::Unper => unper_command(alloc),
        Verb::Account => account_command(alloc),
        Verb::List => list_command(alloc),
        Verb::Later => later_command(alloc),
        Verb::Show => show_command(alloc),
        Verb::Check => octcheck_command(alloc),
    }
}

/// The program asnc without its commands.
fn bare_asnc<'a>(alloc: Global) -> Command<'a>
    ensures shape { app_of result ≡ bare_app }
    ensures local { (out-Command result).has_globals ≡ false }
{
    let about = "An ASN.1 compiler: from modules' texts to octets, and back";
    bare_command(alloc, "asnc", about, AFTER_HELP)
        .version("0.1.0")
        .subcommand_required(true)
        .disable_help_subcommand(true)
}

/// A program with the commands of these verbs, in order.
fn with_commands<'a>(
    alloc: Global,
    program: Command<'a>,
    verbs: &[Verb],
) -> Result<Command<'a>, AllocError>
    ensures shape { IfOk result (λ c. app_of c ≡ with_commands_of (app_of program.entry) verbs.now) }
    ensures local { IfOk result (λ c. (out-Command c).has_globals ≡ (out-Command program.entry).has_globals) }
{
    let mut whole = program;
    for verb in verbs {
        whole = whole.subcommand(command_for(alloc, *verb)?)?;
    }
    Ok(whole)
}

/// The program asnc.
pub(crate) fn asnc_command<'a>(alloc: Global) -> Result<Command<'a>, AllocError>
    ensures shape { IfOk result (λ c. app_of c ≡ asnc_app) }
    ensures local { IfOk result (λ c. (out-Command c).has_globals ≡ false) }
    ensures wants { IfOk result (λ c. (out-Command c).subcommand_required ≡ true) }
{
    with_commands(alloc, bare_asnc(alloc), &COMMANDS)
}
