//! The commands, and their words.
ghost use Rattle.std.specs.Prelude.{◌≡◌, drop, find, length};
ghost use Rattle.reo_command.specs.Commands.{command_of, command_word, none_empty, are_names, are_numbers, follows, fits, roles_of, amounts_of, settings_of, names_of, behind_names};

use crate::amount::{Amount, are_amounts};
use crate::setting::{Setting, are_options};
use reo_values::Bytes;

/// A command.
#[derive(Clone, Copy, Debug, PartialEq, Eq)]
pub enum Command {
    /// `run CIRCUIT SCRIPT [--rounds N]` writes the trace of the script on the circuit.
    Run,
    /// `check CIRCUIT` writes the parts of the circuit.
    Check,
    /// `print CIRCUIT` writes the canonical text of the circuit, of its own version.
    Print,
    /// `upgrade CIRCUIT` writes the canonical text of the circuit as one of version 2.
    Upgrade,
    /// `verify CIRCUIT SCRIPT TRACE` writes the verdict on the trace.
    Verify,
    /// `bench N` runs made work of size N, and writes what came of it in one line.
    Bench,
    /// `live CIRCUIT [--budget N]` hears events from the source, and writes the answers.
    Live,
    /// `list CIRCUIT` writes the boundary tables of the circuit.
    Tables,
    /// `prove CIRCUIT SCRIPT` writes the trace of the script on the circuit, with a log behind each
    /// round that shows that no colouring stands before it.
    Prove,
    /// `verify-proof CIRCUIT SCRIPT PROOF` writes the verdict on such a text.
    VerifyProof,
}

/// All commands.
const COMMANDS: [Command; 10] = [
    Command::Run,
    Command::Check,
    Command::Print,
    Command::Upgrade,
    Command::Verify,
    Command::Bench,
    Command::Live,
    Command::Tables,
    Command::Prove,
    Command::VerifyProof,
];

impl Command {
    /// The first word of the command.
    fn word(self) -> &'static [u8]
        ensures { result.now ≡ command_word self }
    {
        match self {
            Command::Run => b"run",
            Command::Check => b"check",
            Command::Print => b"print",
            Command::Upgrade => b"upgrade",
            Command::Verify => b"verify",
            Command::Bench => b"bench",
            Command::Live => b"live",
            Command::Tables => b"list",
            Command::Prove => b"prove",
            Command::VerifyProof => b"verify-proof",
        }
    }

    /// How many files the command names.
    fn files(self) -> usize
        ensures { result ≡ length (roles_of self) }
    {
        match self {
            Command::Run | Command::Prove => 2,
            Command::Check | Command::Print | Command::Upgrade | Command::Live => 1,
            Command::Tables => 1,
            Command::Verify | Command::VerifyProof => 3,
            Command::Bench => 0,
        }
    }

    /// The amounts that the command is told, in order.
    fn amounts(self) -> &'static [Amount]
        ensures { result.now ≡ amounts_of self }
    {
        match self {
            Command::Bench => &[Amount::Size],
            Command::Run | Command::Check | Command::Print | Command::Upgrade => &[],
            Command::Verify | Command::Live | Command::Tables => &[],
            Command::Prove | Command::VerifyProof => &[],
        }
    }

    /// The options of the command, in order.
    pub(crate) fn settings(self) -> &'static [Setting]
        ensures { result.now ≡ settings_of self }
    {
        match self {
            Command::Run => &[Setting::Budget, Setting::Rounds],
            Command::Live => &[Setting::Budget],
            Command::Check | Command::Print | Command::Upgrade => &[],
            Command::Verify | Command::Bench | Command::Tables => &[],
            Command::Prove | Command::VerifyProof => &[],
        }
    }
}

/// Whether none of these words is empty.
fn none_empty(words: &[Bytes]) -> bool
    ensures { result ≡ none_empty words.now }
{
    words.iter().all(|word| !word.is_empty())
}

/// Whether these words are so many, and none of them is empty.
fn are_names(count: usize, words: &[Bytes]) -> bool
    ensures { result ≡ are_names count words.now }
{
    words.len() == count && none_empty(words)
}

/// Whether the words behind the names are a command's amounts and its options.
fn are_numbers(command: Command, others: &[Bytes]) -> bool
    ensures { result ≡ are_numbers (amounts_of command) (settings_of command) others.now }
{
    let amounts = command.amounts();
    let options = others.get(amounts.len()..).unwrap_or(&[]);
    are_amounts(amounts, others) && are_options(command.settings(), options)
}

/// Whether the words behind the first are names for a command's files, its amounts and its options.
fn follow(command: Command, others: &[Bytes]) -> bool
    ensures { let count = length (roles_of command) in
        result ≡ follows count (amounts_of command) (settings_of command) others.now }
{
    let count = command.files();
    match (others.get(..count), others.get(count..)) {
        (Some(names), Some(rest)) => are_names(count, names) && are_numbers(command, rest),
        _ => false,
    }
}

/// Whether these are the words of a command: its own, a name for each of its files, its amounts,
/// and its options.
fn fits(words: &[Bytes], command: Command) -> bool
    ensures { result ≡ fits words.now command }
{
    match words {
        [] => false,
        [first, others @ ..] => first.as_slice() == command.word() && follow(command, others),
    }
}

/// The first of these commands whose words these are.
fn first_that_fits(words: &[Bytes], commands: &[Command]) -> Option<Command>
    ensures { result ≡ find (fits words.now) commands.now }
{
    match commands {
        [] => None,
        [command, others @ ..] => {
            if fits(words, *command) {
                return Some(*command);
            }
            first_that_fits(words, others)
        }
    }
}

/// The command of some words: `None` exactly where they have no form.
pub fn command_of(words: &[Bytes]) -> Option<Command>
    ensures { result ≡ command_of words.now }
{
    first_that_fits(words, &COMMANDS)
}

/// The names of the files of a command, in words that have its form.
pub(crate) fn names_of(command: Command, words: &[Bytes]) -> &[Bytes]
    ensures { result.now ≡ names_of command words.now }
{
    let others = words.get(1..).unwrap_or(&[]);
    others.get(..command.files()).unwrap_or(others)
}

/// The words behind the names, in words that have the form of a command.
fn behind_names(command: Command, words: &[Bytes]) -> &[Bytes]
    ensures { result.now ≡ behind_names command words.now }
{
    words.get(1 + command.files()..).unwrap_or(&[])
}

/// The words of the options of a command, in words that have its form.
pub(crate) fn options_of(command: Command, words: &[Bytes]) -> &[Bytes]
    ensures { result.now ≡ drop (length (amounts_of command)) (behind_names command words.now) }
{
    let told = behind_names(command, words);
    told.get(command.amounts().len()..).unwrap_or(&[])
}
