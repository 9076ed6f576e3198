// Answers a bundle: lines of text that are taken in and answered over a history.
#![tactic(auto)]

use bundle::run;
use history::Rows;
use std::io::{BufWriter, Read, Write};
use std::process::ExitCode;
use std::{env, fmt, fs, io};

const USAGE: &str = "\
usage: ask [FILE]

Answers a bundle, line by line, from FILE or from standard input. A line is one of

    # a comment; empty lines are passed over
    commit ID GENERATION DATE [PARENT...]
    name ID TEXT
    count
    capacity
    find ID
    read PLACE
    parent PLACE N
    merge-base FIRST [OTHER...]
    octopus FIRST [OTHER...]
    describe START [--candidates=N] [--always] [--first-parent]

ID is 40 hexadecimal digits, a to f small. GENERATION is a number or -. DATE is in seconds
since 1970. PARENT is an id, or @N for the place N. Git writes such lines itself:

    git log --all --topo-order --reverse --format='commit %H - %ct %P' | ask

The status is 1 if a line was malformed or if FILE cannot be read.
";

// What the arguments ask for.
enum Source<'a> {
    Help,
    Input,
    File(&'a str),
}

// Why there is no answer.
#[derive(Drop)]
enum Failure<'a> {
    UnknownOption(&'a str),
    TooManyFiles,
    CannotRead(&'a str, io::Error),
    Io(io::Error),
}

impl fmt::Display for Failure<'_> {
    fn fmt<W: fmt::Write>(&self, f: &mut fmt::Formatter<W>) -> fmt::Result {
        match self {
            Failure::UnknownOption(option) => write!(
                f,
                "unknown option {option}; ask --help says what there is"
            ),
            Failure::TooManyFiles => f.write_str(
                "more than one file; ask --help says what there is",
            ),
            Failure::CannotRead(name, error) => write!(f, "cannot read {name}: {error}"),
            Failure::Io(error) => write!(f, "{error}"),
        }
    }
}

impl From<io::Error> for Failure<'_> {
    fn from(error: io::Error) -> Self {
        Failure::Io(error)
    }
}

// Where the status is 1, the program has said why.
fn main(rt: HostRuntime) -> ExitCode {
    match start(&rt) {
        Ok(status) => status,
        Err(error) => {
            let _ = eprintln!(rt; "ask: {error}");
            ExitCode::FAILURE
        }
    }
}

fn start(rt: &HostRuntime) -> io::Result<ExitCode> {
    let args: Vec<String> = env::args(rt)?.skip(1).collect(rt.alloc())?;
    match answer(rt, args.as_slice()) {
        Ok(status) => Ok(status),
        Err(Failure::Io(error)) => Err(error),
        Err(failure) => {
            eprintln!(rt; "ask: {failure}")?;
            Ok(ExitCode::FAILURE)
        }
    }
}

// Does what the arguments ask for.
fn answer<'a>(rt: &HostRuntime, args: &'a [String]) -> Result<ExitCode, Failure<'a>> {
    match choose(args)? {
        Source::Help => {
            rt.print(USAGE)?;
            Ok(ExitCode::SUCCESS)
        }
        Source::Input => {
            let mut text = Vec::new(rt.alloc());
            rt.stdin().read_to_end(&mut text)?;
            Ok(reply(rt, text.as_slice())?)
        }
        Source::File(name) => {
            let text = fs::read(rt, name).map_err(|error| Failure::CannotRead(name, error))?;
            Ok(reply(rt, text.as_slice())?)
        }
    }
}

fn choose(args: &[String]) -> Result<Source<'_>, Failure<'_>> {
    match args {
        [] => Ok(Source::Input),
        [only] => match only.as_str() {
            "--help" => Ok(Source::Help),
            option if option.starts_with('-') => Err(Failure::UnknownOption(option)),
            name => Ok(Source::File(name)),
        },
        _ => Err(Failure::TooManyFiles),
    }
}

// Answers the bundle on standard output. The status is 1 where a line was malformed.
fn reply(rt: &HostRuntime, text: &[u8]) -> io::Result<ExitCode> {
    let mut history = Rows::open();
    let mut out = BufWriter::new(rt.alloc(), rt.stdout())?;
    let tally = run(rt.alloc(), &mut history, text, &mut out)?;
    out.flush()?;
    Ok(if tally.malformed == 0 {
        ExitCode::SUCCESS
    } else {
        ExitCode::FAILURE
    })
}
