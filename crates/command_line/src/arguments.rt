//! Commands and their arguments, as a table has them, and as the parser of words knows them.

ghost use Rattle.std.specs.Prelude.{IfOk, map};
ghost use Rattle.std.specs.List.{fold};
ghost use Rattle.clap.specs.Words.{App, with_subcommand};
ghost use Rattle.command_line.specs.Arguments.{IsArgument, IsCommand, app_in, option, rule_in, shape_in};

use clap::{Arg, ArgAction, Command};
use std::alloc::{AllocError, Global};

/// An argument: its name, what help calls its value, the value where it isn't there, and what help says of it; in this order, and
/// where it has them.
#[derive(Clone, Copy)]
pub(crate) enum Argument {
    /// A value that has to be there.
    Needed(&'static str, &'static str),
    /// A value that may be left out.
    Allowed(&'static str, &'static str),
    /// Values, one at the least and 16 at most.
    Several(&'static str, &'static str),
    /// An option with a value.
    Optional(&'static str, &'static str, &'static str),
    /// The same, with a value where the option isn't there.
    Defaulted(&'static str, &'static str, &'static str, &'static str),
    /// An option with a value, which may be given several times.
    Repeated(&'static str, &'static str, &'static str),
    /// An option without a value.
    Flag(&'static str, &'static str),
}

/// An option with a value for the parser.
fn option<'a>(alloc: Global, name: &'a str, value: &'a str, help: &'a str) -> Arg<'a>
    ensures { IsArgument (option name.now) result }
{
    Arg::new(alloc, name)
        .long(name)
        .value_name(value)
        .action(ArgAction::Set)
        .help(help)
}

impl Argument {
    /// The same for the parser.
    fn for_parser<'a>(&self, alloc: Global) -> Arg<'a>
        ensures { IsArgument (rule_in self.now) result }
    {
        match *self {
            Argument::Needed(name, help) => Arg::new(alloc, name)
                .required(true)
                .action(ArgAction::Set)
                .help(help),
            Argument::Allowed(name, help) => {
                Arg::new(alloc, name).action(ArgAction::Set).help(help)
            }
            Argument::Several(name, help) => Arg::new(alloc, name)
                .required(true)
                .num_args(1..=16)
                .action(ArgAction::Append)
                .help(help),
            Argument::Optional(name, value, help) => option(alloc, name, value, help),
            Argument::Defaulted(name, value, default, help) => option(
                alloc, name, value, help,
            ).default_value(default),
            Argument::Repeated(name, value, help) => {
                option(alloc, name, value, help).action(ArgAction::Append)
            }
            Argument::Flag(name, help) => Arg::new(alloc, name)
                .long(name)
                .action(ArgAction::SetTrue)
                .help(help),
        }
    }
}

/// A command of the program: its name, what help says that it does, and its arguments in their order.
#[derive(Clone, Copy)]
pub(crate) struct Subcommand {
    pub(crate) name: &'static str,
    pub(crate) about: &'static str,
    pub(crate) arguments: &'static [Argument],
}

impl Subcommand {
    /// The same for the parser.
    pub(crate) fn for_parser<'a>(&self, alloc: Global) -> Result<Command<'a>, AllocError>
        ensures { IfOk result (IsCommand (app_in self.now)) }
    {
        let mut command = Command::new(alloc, self.name).about(self.about);
        for argument in self.arguments {
            command = command.arg(argument.for_parser(alloc))?;
        }
        Ok(command)
    }
}

/// A command with these below it.
pub(crate) fn with_subcommands<'a>(
    alloc: Global,
    command: Command<'a>,
    subcommands: &[Subcommand],
) -> Result<Command<'a>, AllocError>
    ensures { (app : App) → IsCommand app command.entry
        → IfOk result (IsCommand (fold with_subcommand app (map shape_in subcommands.now))) }
{
    let mut command = command;
    for subcommand in subcommands {
        let below = subcommand.for_parser(alloc)?;
        command = command.subcommand(below)?;
    }
    Ok(command)
}
