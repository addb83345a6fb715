//! The program's words.

use crate::error::CommandError;
use crate::serving::MOST_ON_LINK;
use clap::builder::ValueParser;
use clap::error::ErrorKind;
use clap::{Arg, ArgAction, ArgMatches, Command, Error};
use std::alloc::{AllocError, Global};
use std::process::ExitCode;

const ABOUT: &str = "Broadcast nodes that speak Centrifugo's client protocol, proved in Rattle.";

/// The namespaces that are set up unless others are given: one, for the channels without a prefix, which holds 100
/// publications for 300 seconds and allows all.
const DEFAULT_NAMESPACES: &str = "=100,300,phs";

/// The epochs that a conversation's streams take unless others are given.
const DEFAULT_EPOCHS: &str = "aaaa";

/// How many publications wait at most on the link to a node unless another number is given.
const DEFAULT_LINK: u32 = 1024;

/// What `--version` shows: the program, its number, and what it speaks.
pub(crate) const VERSION: &str = "cf_server 1.0.0 (Centrifugo's client protocol, JSON form)";

const SIMULATE: &str =
    "Reads a schedule from standard input, runs it, and prints what each client gets";

const SERVE: &str = "Serves WebSocket clients on 127.0.0.1 until standard input ends";

const SERVE_NOTES: &str = "Each node listens at a port of its own, and says so:
  node 0 127.0.0.1:8000

A client connects by WebSocket, at any path, and speaks Centrifugo's client protocol in JSON form:
  {\"id\":1,\"connect\":{}}
  {\"id\":2,\"subscribe\":{\"channel\":\"news\"}}
  {\"id\":3,\"publish\":{\"channel\":\"news\",\"data\":\"hello\"}}

--boot is the number of this start of the program. Never use one twice: clients that come back tell by it whether the
streams are still those that they know.

What comes faster than a node takes it waits on the node's link. What a full link has no room for is lost on the way to that
node; its clients are told to subscribe again, and get it by recovery. --link 1 shows that, and a larger link makes it rare.

A connection that never sends a connect command stays for ever, and takes one of a node's 16,384 slots; with --stale 25 it is
dropped 25 seconds after its handshake.

It ends at the end of standard input (Ctrl-D at a terminal): each client is closed with 3001. Ctrl-C and TERM end it at once, and
no client is told why. Without a terminal somebody has to hold its input open, and to let it go at the end, as examples/run-serve
does. By hand, the first line starts it, the second says a line to it, and the third ends it:
  mkfifo input; cf_server serve --boot 7 --port 8000 < input & exec 9> input
  echo \"size =200\" >&9
  exec 9>&-
If a node can't serve, or its loop ends, all nodes end, and the status is 4. `input or output failed` then stands on standard
error, and above it the node and what failed there: its port is taken by another program (another --port), it may not listen there,
or its thread can't be started. Alone it says that standard input or output failed, as a pipe whose reader is gone.

A line `size NAME=K` of standard input sets how many publications the streams of a namespace hold from then on, 1 to 10,000;
`size =K` is for the channels without a `:`. The answer stands on standard error: `size =200: set`, or why it was passed over, or
that a shard of the broker refused it and keeps its size. Lines that don't begin with `size` are passed over, and not answered.

On standard error it says, at most once a second of each node and kind, how many connections were refused for want of descriptors
or memory, how many publications were lost on full links, and how many sessions were closed for slowness; --quiet for none.";

const SPEAK: &str = "Speaks with one client: each line of standard input is one of its messages";

const SPEAK_NOTES: &str =
    "A line is what a client of Centrifugo sends in one message: one or more commands in JSON. What the client gets is printed,
a line for each message, and `close CODE REASON` when the server would close the connection; then it ends.

For example, with these lines as input (cf_server speak, and then paste them):
  {\"id\":1,\"connect\":{}}
  {\"id\":2,\"subscribe\":{\"channel\":\"news\"}}
  {\"id\":3,\"publish\":{\"channel\":\"news\",\"data\":\"hello\"}}
  {\"id\":4,\"history\":{\"channel\":\"news\",\"limit\":-1}}
  {\"id\":5,\"connect\":{}}
it prints:
  {\"connect\":{\"client\":\"0-1-1\",\"ping\":25,\"pong\":true,\"version\":\"1.0.0\"},\"id\":1}
  {\"id\":2,\"subscribe\":{\"epoch\":\"aaaa\",\"positioned\":true,\"recoverable\":true}}
  {\"id\":3,\"publish\":{}}
  {\"push\":{\"channel\":\"news\",\"pub\":{\"data\":\"hello\",\"info\":{\"client\":\"0-1-1\"},\"offset\":1}}}
  {\"history\":{\"epoch\":\"aaaa\",\"offset\":1,\"publications\":[{\"data\":\"hello\",\"info\":{\"client\":\"0-1-1\"},\"offset\":1}]},\"id\":4}
  close 3501 bad request

Each new stream takes the next of the epochs; if none is left, a command that would open a stream fails with error 100.";

const PROGRAM_NOTES: &str = "With no command it is `simulate`.

Each command reads standard input to its end. `serve` serves until then: Ctrl-D at a terminal ends it, and `cf_server serve --help`
tells how it is held open and ended without one. --version says the number of the program, and not of which sources it was built.

Exit status: 0 done, 2 unusable words or input, 3 out of memory, 4 input or output failed.";

const SCHEDULE_NOTES: &str =
    "A schedule has a line for each event, its words separated by one space:
  epoch E         an epoch waits, behind the others, for the next stream that opens
  connect X N     client X connects to node N, counted from 0
  ask X C         X sends the subscribe command for channel C, and its node reads it
  read X C        the channel's stream is read for X's subscription
  finish X C      the subscription stands, and its reply waits for X
  publish C DATA  JSON data is published to C
  deliver N I     node N is given the publication I, counted from 1 over all channels
  take X          X takes the first text that waits for it
  trim C K        C's stream holds the newest K publications and no more
  forget C        C's stream is gone, and the next one has a new epoch
  brokerrestart   all streams are gone
  break X         X's connection breaks, and what waits for X is lost
  restart N       node N restarts, and its connections break
  askfrom X C     as ask, from the last position that X had in C
  check X C       X's node compares where X is in C with the stream
  leave X C       X sends the unsubscribe command
  put X C DATA    X publishes JSON data to C
  list X C LIMIT  X asks for what C's stream holds, at most LIMIT publications
  publishkey C KEY DATA  as publish, under a key: if it is among the last 100 keys of C, nothing is published
  putkey X C KEY DATA    as put, under a key
  size NAME=K            a stream of namespace NAME holds the newest K publications and no more, from now on
A line that is empty or begins with # is passed over. An event that can't happen changes nothing; --explain says why.
If a line is none of these, nothing of the schedule is run, and `line N: unreadable` says which; with --explain a line behind it says
why. Commonly it is a line that ends in CR LF, two spaces or a space at the end, a byte order mark, or DATA that is no JSON.

What is printed, each by the `take` that brings it:
  X C sub E O fresh      X is subscribed to C, from offset O of epoch E
  X C sub E O recovered  the same after askfrom, and what X missed follows
  X C sub E O lost       the same after askfrom, and what X missed can't be had
  X C pub E O DATA       X got the publication of C at offset O of epoch E
  X C again 2500         X's subscription has ended, and X is to come back
  X C refused CODE       a command of X was answered with an error
  X C list E O COUNT     X got so many publications of C's history
  X closed CODE          X's connection was closed

With --explain, lines that begin with # stand among them: each event with its line's number, the texts that were sent and
taken, and what stands otherwise than before, or why nothing changed.";

/// What the program is to do.
#[derive(Clone, Copy)]
pub(crate) enum Job<'a> {
    Simulate(Options<'a>),
    Speak(SpeakOptions<'a>),
    Serve(ServeOptions<'a>),
    /// It says which version it is.
    Version,
}

/// What `simulate` runs with: how many nodes, the text of the namespaces, and whether it tells what each event did.
#[derive(Clone, Copy)]
pub struct Options<'a> {
    pub nodes: u8,
    pub namespaces: &'a str,
    pub explains: bool,
}

/// What `speak` runs with: the texts of namespaces, tokens and epochs.
#[derive(Clone, Copy)]
pub struct SpeakOptions<'a> {
    pub namespaces: &'a str,
    pub tokens: &'a str,
    pub epochs: &'a str,
}

/// What `serve` runs with: the number of this start, how many nodes, the port of the first (0: any that is free), how
/// many publications wait at most on the link to a node, after how many seconds without a connect command a connection
/// is dropped (0: never), whether nothing is said of what goes wrong, and the texts of namespaces and tokens.
#[derive(Clone, Copy)]
pub struct ServeOptions<'a> {
    pub boot: u64,
    pub nodes: u8,
    pub port: u16,
    pub link: u32,
    pub stale: u32,
    pub is_quiet: bool,
    pub namespaces: &'a str,
    pub tokens: &'a str,
}

/// An option of the program: its name, its value (a flag has none), and what help says of it.
#[derive(Clone, Copy)]
struct KnownWords {
    name: &'static str,
    value: Option<Value>,
    help: &'static str,
}

/// The value of an option: what help calls it, what it has to be, and what it is unless another is given; if there is
/// nothing, one has to be given.
#[derive(Clone, Copy)]
struct Value {
    word: &'static str,
    parser: ValueParser<'static>,
    default: Option<&'static str>,
}

const NODES: KnownWords = KnownWords {
    name: "nodes",
    value: Some(Value {
        word: "N",
        parser: ValueParser::Signed(1, 8),
        default: Some("1"),
    }),
    help: "How many nodes there are, 1 to 8",
};

const NAMESPACES: KnownWords = KnownWords {
    name: "ns",
    value: Some(Value {
        word: "SPEC",
        parser: ValueParser::String,
        default: Some(DEFAULT_NAMESPACES),
    }),
    help: "The namespaces that are set up, as NAME=SIZE,SECONDS,FLAGS separated by `;`",
};

const TOKENS: KnownWords = KnownWords {
    name: "tokens",
    value: Some(Value {
        word: "SPEC",
        parser: ValueParser::String,
        default: Some(""),
    }),
    help: "Who connects by which token, as TOKEN=USER separated by `;`",
};

const EPOCHS: KnownWords = KnownWords {
    name: "epochs",
    value: Some(Value {
        word: "E1,E2,..",
        parser: ValueParser::String,
        default: Some(DEFAULT_EPOCHS),
    }),
    help: "The epochs of the streams that open, in order, separated by `,`",
};

const BOOT: KnownWords = KnownWords {
    name: "boot",
    value: Some(Value {
        word: "B",
        parser: ValueParser::Unsigned(1, 999_999_999_999_999),
        default: None,
    }),
    help: "The number of this start, 1 to 999999999999999, never used before",
};

const PORT: KnownWords = KnownWords {
    name: "port",
    value: Some(Value {
        word: "P",
        parser: ValueParser::Signed(0, 65_535),
        default: Some("0"),
    }),
    help: "Node i listens at port P + i; 0: each at a port that is free",
};

const LINK: KnownWords = KnownWords {
    name: "link",
    value: Some(Value {
        word: "K",
        parser: ValueParser::Signed(1, MOST_ON_LINK),
        default: Some("1024"),
    }),
    help: "How many publications wait at most on the link to a node, 1 to 65536",
};

const STALE: KnownWords = KnownWords {
    name: "stale",
    value: Some(Value {
        word: "SECONDS",
        parser: ValueParser::Signed(0, 86_400),
        default: Some("0"),
    }),
    help: "A connection without a connect command is dropped after so many seconds; 0: never",
};

const EXPLAIN: KnownWords = KnownWords {
    name: "explain",
    value: None,
    help: "Tells beside each event what it did, or why it changed nothing",
};

const QUIET: KnownWords = KnownWords {
    name: "quiet",
    value: None,
    help: "Says nothing on standard error of what goes wrong while it serves",
};

const SHOW_VERSION: KnownWords = KnownWords {
    name: "version",
    value: None,
    help: "Says which version this is",
};

fn option_of<'a>(alloc: Global, known: &KnownWords) -> Arg<'a> {
    let option = Arg::new(alloc, known.name)
        .long(known.name)
        .help(known.help);
    match &known.value {
        None => option.action(ArgAction::SetTrue),
        Some(value) => {
            let option = option.value_name(value.word).value_parser(value.parser);
            match value.default {
                Some(text) => option.default_value(text),
                None => option.required(true),
            }
        }
    }
}

// A command of this name: what it is for, what stands below its help, and its options.
fn command<'a>(
    alloc: Global,
    name: &'a str,
    about: &'a str,
    notes: &'a str,
    options: &[KnownWords],
) -> Result<Command<'a>, AllocError> {
    let mut command = Command::new(alloc, name).about(about).after_help(notes);
    for known in options {
        command = command.arg(option_of(alloc, known))?;
    }
    Ok(command)
}

// The program's command of a number from 0.
fn command_at<'a>(alloc: Global, number: u8) -> Result<Command<'a>, AllocError> {
    match number {
        0 => command(
            alloc,
            "simulate",
            SIMULATE,
            SCHEDULE_NOTES,
            &[NODES, NAMESPACES, EXPLAIN],
        ),
        1 => command(
            alloc,
            "speak",
            SPEAK,
            SPEAK_NOTES,
            &[NAMESPACES, TOKENS, EPOCHS],
        ),
        _ => {
            let options = [BOOT, NODES, PORT, LINK, STALE, NAMESPACES, TOKENS, QUIET];
            command(alloc, "serve", SERVE, SERVE_NOTES, &options)
        }
    }
}

fn program<'a>(alloc: Global) -> Result<Command<'a>, AllocError> {
    let mut program = command(alloc, "cf_server", ABOUT, PROGRAM_NOTES, &[SHOW_VERSION])?;
    for number in 0..3 {
        match command_at(alloc, number) {
            Ok(command) => program = program.subcommand(command)?,
            Err(refused) => {
                drop(program);
                return Err(refused);
            }
        }
    }
    Ok(program)
}

/// Reads the program's words. With none but the program's name they ask for `simulate`. An error is what is to be
/// shown: the help that was asked for, or why the words can't be used.
pub(crate) fn read_words<'a>(alloc: Global, words: &'a [String]) -> Result<Job<'a>, Error> {
    let matches = program(alloc)?.try_get_matches_from(words)?;
    Ok(job_of(&matches))
}

// What was asked for, with the options that were found, or else the defaults.
fn job_of<'a>(matches: &ArgMatches<'a>) -> Job<'a> {
    let (command, found) = matches.subcommand().unwrap_or(("simulate", matches));
    let namespaces = found.get_str("ns").unwrap_or(DEFAULT_NAMESPACES);
    let tokens = found.get_str("tokens").unwrap_or("");
    let nodes = found.get_one::<u8>("nodes").unwrap_or(1);
    match command {
        "serve" => Job::Serve(ServeOptions {
            boot: found.get_one::<u64>("boot").unwrap_or(1),
            nodes,
            port: found.get_one::<u16>("port").unwrap_or(0),
            link: found.get_one::<u32>("link").unwrap_or(DEFAULT_LINK),
            stale: found.get_one::<u32>("stale").unwrap_or(0),
            is_quiet: found.get_flag("quiet"),
            namespaces,
            tokens,
        }),
        "speak" => Job::Speak(SpeakOptions {
            namespaces,
            tokens,
            epochs: found.get_str("epochs").unwrap_or(DEFAULT_EPOCHS),
        }),
        _ if found.get_flag("version") => Job::Version,
        _ => Job::Simulate(Options {
            nodes,
            namespaces,
            explains: found.get_flag("explain"),
        }),
    }
}

/// Shows an error of `read_words`, and gives the exit status.
pub(crate) fn show<R: Print + Eprint>(rt: &R, error: &Error) -> Result<ExitCode, CommandError> {
    if error.kind() == ErrorKind::OutOfMemory {
        return Err(CommandError::Memory);
    }
    error.print(rt)?;
    Ok(if error.use_stderr() {
        ExitCode::from(2)
    } else {
        ExitCode::SUCCESS
    })
}
