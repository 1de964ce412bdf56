//! The commands of the program: their arguments, and what they ask for by the values that the parser found.

ghost use Rattle.std.specs.Prelude.{◌≡◌, ◌↔◌, IfOk, IsTrue, codes, true};
ghost use Rattle.clap.specs.Words.{is_simple_and_free};
ghost use Rattle.command_line.specs.Arguments.{IsCommand};
ghost use Rattle.command_line.specs.Commands.{Asks, HasTopic, IsNameOf, IsQuestionOf, asking_commands, bare_program, commands, program};
ghost use Rattle.command_line.specs.Unread.{Reads};
ghost use Rattle.command_line.specs.Values.{rows_in};

use crate::arguments::{Argument, Subcommand, with_subcommands};
use crate::memory::memory;
use crate::recording::recording;
use crate::request::{Question, Request};
use crate::unread::{Unread, Wanted};
use crate::values::{flag, form, guest, number, place, text, text_or_none, texts, watched};
use clap::{ArgMatches, Command};
use std::alloc::{AllocError, Global};

/// The version of the program.
const VERSION: &str = "0.4.0";

const STORE: Argument = Argument::Needed("STORE", "the file of the store");

const GUEST: Argument = Argument::Needed("GUEST", "the guest's number in the store");

const FROM: Argument = Argument::Needed(
    "FROM",
    "the place to go back from, in instructions, or end",
);

const MEMORY: Argument = Argument::Repeated(
    "memory",
    "ADDR:LEN",
    "print LEN bytes of memory from ADDR on, up to 65536",
);

const PROGRESS: Argument = Argument::Flag("progress", "show how far it is, on standard error");

/// The commands, in the order in which help lists them.
const SUBCOMMANDS: &[Subcommand] = &[
    Subcommand {
        name: "new",
        about: "makes an empty store in a new file",
        arguments: &[STORE],
    },
    Subcommand {
        name: "record",
        about: "records 1 to 16 programs at once",
        arguments: &[
            STORE,
            Argument::Defaulted(
                "quantum",
                "N",
                "50000",
                "instructions of a slice at most, 64 to 1048576",
            ),
            Argument::Defaulted(
                "every",
                "N",
                "1048576",
                "instructions between checkpoints, 0 for none; auto: as what they cost says",
            ),
            Argument::Optional(
                "input",
                "FILE",
                "what each guest reads, up to 1048576 bytes",
            ),
            Argument::Optional("seed", "HEX", "the seed of random bytes, 32 digits"),
            Argument::Repeated(
                "name",
                "NAME",
                "the guests' name, once or once for each ELF",
            ),
            Argument::Repeated(
                "choices",
                "FILE",
                "the choices of the turns, once or once for each ELF",
            ),
            Argument::Defaulted(
                "then",
                "THEN",
                "turns",
                "what follows the choices: turns or none",
            ),
            Argument::Optional(
                "limit",
                "N",
                "end a guest's recording after so many instructions",
            ),
            Argument::Flag(
                "fail",
                "end with status 3 if a guest ended otherwise than exited 0",
            ),
            Argument::Flag(
                "upgrade",
                "mark the store first, so that its guests may wait with a timeout",
            ),
            PROGRESS,
            Argument::Several("ELF", "static RISC-V programs (ELF32, RV32IMA)"),
        ],
    },
    Subcommand {
        name: "check",
        about: "tells whether record takes a file as a program",
        arguments: &[Argument::Needed("ELF", "the file")],
    },
    Subcommand {
        name: "list",
        about: "prints a line for each guest",
        arguments: &[
            STORE,
            Argument::Flag("long", "tell more of each guest, which is replayed for it"),
            PROGRESS,
        ],
    },
    Subcommand {
        name: "elf",
        about: "puts out the program of a guest",
        arguments: &[STORE, GUEST],
    },
    Subcommand {
        name: "copy",
        about: "copies a guest to another store",
        arguments: &[
            STORE,
            GUEST,
            Argument::Needed("TO", "the file of the other store"),
        ],
    },
    Subcommand {
        name: "dump",
        about: "prints a line for each record of a guest",
        arguments: &[
            STORE,
            GUEST,
            Argument::Flag("places", "add the places of each frame"),
            Argument::Flag(
                "trace-events",
                "print the frames as trace events in JSON, instead",
            ),
            PROGRESS,
        ],
    },
    Subcommand {
        name: "verify",
        about: "replays a guest's records and compares",
        arguments: &[
            STORE,
            GUEST,
            Argument::Flag("long", "tell more of how the guest ended"),
            PROGRESS,
        ],
    },
    Subcommand {
        name: "replay",
        about: "puts a guest's output out again",
        arguments: &[
            STORE,
            GUEST,
            Argument::Optional(
                "at",
                "T",
                "print the state behind T instructions, or at the end, instead",
            ),
            MEMORY,
            PROGRESS,
        ],
    },
    Subcommand {
        name: "back",
        about: "prints the state so many instructions back",
        arguments: &[
            STORE,
            GUEST,
            FROM,
            Argument::Needed("N", "how many instructions to go back"),
            MEMORY,
            PROGRESS,
        ],
    },
    Subcommand {
        name: "last",
        about: "prints the state before a byte's last change",
        arguments: &[
            STORE,
            GUEST,
            FROM,
            Argument::Needed("ADDR", "the byte's address, 1 to 8 hexadecimal digits"),
            Argument::Flag("word", "watch the four bytes from ADDR on"),
            Argument::Defaulted(
                "times",
                "N",
                "1",
                "go on to the changes before it, up to N, 1 to 65536",
            ),
            Argument::Flag("short", "print a line for each change, not the state"),
            MEMORY,
            PROGRESS,
        ],
    },
    Subcommand {
        name: "choices",
        about: "prints the choices of a guest's turns",
        arguments: &[STORE, GUEST, PROGRESS],
    },
    Subcommand {
        name: "core",
        about: "writes an ELF core file of the state at a place",
        arguments: &[
            STORE,
            GUEST,
            Argument::Needed("AT", "the place of the state, in instructions, or end"),
            Argument::Needed("FILE", "the core file to write"),
            PROGRESS,
        ],
    },
    Subcommand {
        name: "ask",
        about: "answers questions of a guest, a line of standard input each",
        arguments: &[
            STORE,
            GUEST,
            Argument::Flag("short", "print a line for each place, not the state"),
            PROGRESS,
        ],
    },
    Subcommand {
        name: "help",
        about: "prints help, or that of a command",
        arguments: &[Argument::Allowed("COMMAND", "the command")],
    },
];

/// The program without its commands.
fn bare_program<'a>(alloc: Global) -> Result<Command<'a>, AllocError>
    ensures { IfOk result (IsCommand bare_program) }
{
    Command::new(alloc, "rrv")
        .version(VERSION)
        .about("records RISC-V programs and replays them exactly")
        .no_binary_name(true)
        .subcommand_required(true)
        .disable_help_subcommand(true)
        .bin_name("rrv")
}

/// The program with its commands, which the parser reads words by.
pub fn program<'a>(alloc: Global) -> Result<Command<'a>, AllocError>
    ensures commands { IfOk result (IsCommand program) }
    ensures exact { is_simple_and_free program ≡ true }
{
    with_subcommands(alloc, bare_program(alloc)?, SUBCOMMANDS)
}

/// Tests whether a command of the program has this name.
pub(crate) fn is_command(name: &str) -> bool
    ensures { IsTrue result ↔ IsNameOf name.now commands }
{
    SUBCOMMANDS.iter().any(|subcommand| subcommand.name == name)
}

/// The command of this name by itself, whose usage an error shows; else the program.
pub(crate) fn command_of<'a>(alloc: Global, name: &str) -> Result<Command<'a>, AllocError> {
    for subcommand in SUBCOMMANDS {
        if subcommand.name == name {
            let shown = format!(in alloc; "rrv {name}")?;
            return subcommand.for_parser(alloc)?.bin_name(&shown);
        }
    }
    program(alloc)
}

/// The command of which help is asked for, if one is named.
fn topic<'a>(values: &ArgMatches<'a>) -> Result<Option<&'a str>, Unread<'a>>
    ensures { Reads (HasTopic (rows_in values.now)) result }
{
    match text_or_none(values, "COMMAND") {
        Some(name) if is_command(name) => Ok(Some(name)),
        Some(text) => Err(Unread::Bad {
            name: "COMMAND",
            text,
            wanted: Wanted::Command,
        }),
        None => Ok(None),
    }
}

/// A command that the parser found: its name, and its values.
type Found<'m, 'a> = (&'m str, &'m ArgMatches<'a>);

/// What a command of the program asks for.
pub(crate) fn request_of<'a>(alloc: Global, found: Found<'_, 'a>) -> Result<Request<'a>, Unread<'a>>
    requires { IsNameOf found.0.now commands }
    ensures { Reads (λ request. Asks request (found.entry.0.now, rows_in found.entry.1.now)) result }
{
    let (name, values) = found;
    match name {
        "new" => Ok(Request::New {
            store: text(values, "STORE")?,
        }),
        "record" => Ok(Request::Record(recording(alloc, values)?)),
        "help" => Ok(Request::Help {
            command: topic(values)?,
        }),
        "check" => Ok(Request::Check {
            file: text(values, "ELF")?,
        }),
        "list" => Ok(Request::List {
            store: text(values, "STORE")?,
            replays: flag(values, "long"),
            progress: flag(values, "progress"),
        }),
        "elf" => Ok(Request::Elf {
            guest: guest(values)?,
        }),
        "copy" => Ok(Request::Copy {
            guest: guest(values)?,
            to: text(values, "TO")?,
        }),
        "dump" => Ok(Request::Dump {
            guest: guest(values)?,
            form: form(values)?,
            progress: flag(values, "progress"),
        }),
        "verify" => Ok(Request::Verify {
            guest: guest(values)?,
            long: flag(values, "long"),
            progress: flag(values, "progress"),
        }),
        _ => Ok(Request::Ask {
            guest: guest(values)?,
            question: question(alloc, found)?,
            progress: flag(values, "progress"),
        }),
    }
}

/// What a command asks of a guest's recording.
fn question<'a>(alloc: Global, found: Found<'_, 'a>) -> Result<Question<'a>, Unread<'a>>
    requires { IsNameOf found.0.now asking_commands }
    ensures { Reads (λ question. IsQuestionOf question (found.entry.0.now, rows_in found.entry.1.now)) result }
{
    let (name, values) = found;
    match name {
        "replay" => replay(alloc, values),
        "back" => Ok(Question::Back {
            from: place(values, "FROM")?,
            count: number(values, "N", 0, u64::MAX)?,
            memory: memory(alloc, values)?,
        }),
        "last" => last(alloc, values),
        "choices" => Ok(Question::Choices),
        "core" => Ok(Question::Core {
            at: place(values, "AT")?,
            file: text(values, "FILE")?,
        }),
        "ask" => Ok(Question::Lines {
            short: flag(values, "short"),
        }),
        _ => unreachable!(),
    }
}

/// What `last` asks for.
fn last<'a>(alloc: Global, values: &ArgMatches<'a>) -> Result<Question<'a>, Unread<'a>>
    ensures { Reads (λ question. IsQuestionOf question (codes "last", rows_in values.now)) result }
{
    Ok(Question::Last {
        from: place(values, "FROM")?,
        watched: watched(values)?,
        times: number(values, "times", 1, 65_536)?,
        short: flag(values, "short"),
        memory: memory(alloc, values)?,
    })
}

/// What `replay` asks for: the state at a place, where one is given, and else the output.
fn replay<'a>(alloc: Global, values: &ArgMatches<'a>) -> Result<Question<'a>, Unread<'a>>
    ensures { Reads (λ question. IsQuestionOf question (codes "replay", rows_in values.now)) result }
{
    if text_or_none(values, "at").is_some() {
        return Ok(Question::State {
            at: place(values, "at")?,
            memory: memory(alloc, values)?,
        });
    }
    if !texts(values, "memory").is_empty() {
        return Err(Unread::MemoryAlone);
    }
    Ok(Question::Output)
}
