//! What a process does that was started with some words.
use crate::pictures::Pictures;
use crate::recovery::{rebuild_at, recover_at};
use crate::stores::{serve_controller, serve_node, serve_orchestrator, tell};
use csi_commands::stream;
use csi_stores::Counted;
use csi_streams::{Ending, FileCommand};
use csi_words::{CommandLine, Help, give_text, parse};
use std::process::ExitCode;
use std::rt::Files;
use std::{fs, io};

// Carries a command out on a file, piece by piece.
fn over_file(rt: &(impl Files + Print + AllocGlobal), command: FileCommand, path: &str) -> Ending {
    let mut input = match fs::open(rt, path) {
        Ok(input) => Counted::new(input),
        Err(error) => return Ending::of_device(error.kind()),
    };
    let mut out = Counted::new(io::writer(rt));
    stream::<Pictures, _, _>(rt.alloc(), command, &mut input, &mut out)
}

// Gives help.
fn help_on(rt: &impl Print, help: Help) -> Ending {
    let mut out = Counted::new(io::writer(rt));
    give_text(help.text(), &mut out)
}

// Does what a command line names.
fn carry_out(rt: &HostRuntime, line: CommandLine<'_>) -> Ending {
    match line {
        CommandLine::Help(help) => help_on(rt, help),
        CommandLine::File(command, path) => over_file(rt, command, path),
        CommandLine::Controller { store, config } => serve_controller(rt, store, config),
        CommandLine::Node { store, id, session } => serve_node(rt, store, id, session),
        CommandLine::Orchestrator {
            store,
            config,
            session,
        } => serve_orchestrator(rt, store, config, session),
        CommandLine::Record(store) => tell(rt, store),
        CommandLine::Recover(words) => recover_at(rt, &words),
        CommandLine::RecoverController(words) => rebuild_at(rt, &words),
    }
}

// Does what the words of this process name.
fn run(rt: &HostRuntime) -> Result<Ending, Ending> {
    let words = match std::env::args(rt) {
        Ok(words) => words,
        Err(error) => return Err(Ending::of_words(error.kind())),
    };
    let words: Vec<String> = words.collect(rt.alloc())?;
    let line = parse(rt.alloc(), words.as_slice())?;
    Ok(carry_out(rt, line))
}

/// Does what the words of this process name, and says on standard error how it ended, unless all was done; the answer is the exit
/// status. Help goes to standard output, and nothing else is opened then. A store is opened after the words, the configuration or the id
/// were taken, and standard input is read after that.
pub fn ended(rt: &HostRuntime) -> ExitCode {
    let ending = match run(rt) {
        Ok(ending) => ending,
        Err(ending) => ending,
    };
    if ending != Ending::Done {
        let _ = eprintln!(rt; "{ending}");
    }
    ExitCode::from(ending)
}
