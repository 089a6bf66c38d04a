//! The words of the command line.
ghost use Rattle.std.specs.Prelude.{◌≡◌, IfOk, IfErr, map, option_map, is_some, string_bytes, codes, true};
ghost use Rattle.clap.specs.Words.{Shape, app_of, first_of, found_of, kind_of, new_app, rows_of, subcommand_of, subcommand_rows_of, takes, with_subcommand};
ghost use Rattle.clap.specs.declared.error.kind.ErrorKind.TheVariants.{OutOfMemory};
ghost use Rattle.csi_words.specs.declared.help.Help.{Help as OneHelp};
ghost use Rattle.csi_words.specs.Public.Help.{help_asked as asked};
ghost use Rattle.csi_words.specs.Public.Words.{
  command_entered,
  command_in as named_in,
  few_in,
  on_recover,
  on_session,
  on_stores,
  controller_in,
  made_of_by,
  made_of_in,
  node_in,
  orchestrator_in,
  record_in,
  recover_controller_in,
  recover_in,
  texts_of,
  on_file_in,
  named_by,
  read,
  EndsWords,
  program as all_words,
  with_word,
};
ghost use Rattle.csi_words.specs.Private.Words.{IsAddedAs, ending_of_words, with_file_commands as with_files};

use crate::help::{Help, help_asked};
use clap::error::ErrorKind;
use clap::{Arg, ArgAction, ArgMatches, Command, Error};
use csi_streams::{Ending, FileCommand, ScheduleCommand};
use std::alloc::{AllocError, Global};

/// What the words name: a command, with the texts behind it, or the help that they ask for.
#[derive(Debug, Drop)]
pub enum CommandLine<'a> {
    /// `--help` or `-h`, alone or behind the name of a subcommand, or `--version` alone: what the help is about.
    Help(Help),
    /// `answer FILE`, `show FILE`, `run FILE`, `frames FILE` and `draw FILE`: what is done, and the path of the file.
    File(FileCommand, &'a str),
    /// `controller DB CONFIG`: the paths of the store and of the file of the configuration.
    Controller {
        store: &'a str,
        config: &'a str,
    },
    /// `node DB ID` or `node DB ID SESSION`: the path of the store, the node's id, and the session of its joining, of which nothing is
    /// asked yet.
    Node {
        store: &'a str,
        id: &'a str,
        session: Option<&'a str>,
    },
    /// `orchestrator DB CONFIG` or `orchestrator DB CONFIG SESSION`: the paths of the store and of the file of the configuration, and the
    /// session that begins, of which nothing is asked yet.
    Orchestrator {
        store: &'a str,
        config: &'a str,
        session: Option<&'a str>,
    },
    /// `record DB`: the path of the store.
    Record(&'a str),
    /// `recover NEW.db CONFIG SESSION CONTROLLER.db NODE.db..`.
    Recover(MadeOf<'a>),
    /// `recover-controller NEW.db CONFIG NEXT ORCHESTRATOR.db NODE.db..`.
    RecoverController(MadeOf<'a>),
}

/// The words of a command that makes a store of others.
#[derive(Debug, Drop)]
pub struct MadeOf<'a> {
    /// The path of the store that is made.
    pub new: &'a str,
    /// That of the file of the configuration.
    pub config: &'a str,
    /// The greatest session that is known, or the next id, of which nothing is asked yet.
    pub number: &'a str,
    /// The path of the controller's store, or of the orchestrator's.
    pub kept: &'a str,
    /// Those of the nodes'.
    pub nodes: Vec<&'a str>,
}

// A command of this name, which takes one word.
fn one_word_command<'a>(
    alloc: Global,
    name: &'a str,
    word: &'a str,
) -> Result<Command<'a>, AllocError>
    ensures { IfOk result (IsAddedAs (with_word (new_app name.entry.now) word.entry.now).top) }
{
    let only = Arg::new(alloc, word).required(true);
    Command::new(alloc, name).arg(only)
}

// A command of this name, which serves over a store: that, and another word.
fn store_command<'a>(
    alloc: Global,
    name: &'a str,
    second: &'a str,
) -> Result<Command<'a>, AllocError>
    ensures { IfOk result (IsAddedAs (with_word (with_word (new_app name.entry.now) (codes "DB")) second.entry.now).top) }
{
    let store = Arg::new(alloc, "DB").required(true);
    let command = Command::new(alloc, name).arg(store)?;
    let other = Arg::new(alloc, second).required(true);
    command.arg(other)
}

// A command of this name, which serves over a store: that, another word, and a session, which may be left out.
fn session_command<'a>(
    alloc: Global,
    name: &'a str,
    second: &'a str,
) -> Result<Command<'a>, AllocError>
    ensures { IfOk result (IsAddedAs (on_session name.entry.now second.entry.now).top) }
{
    let store = Arg::new(alloc, "DB").required(true);
    let with_store = Command::new(alloc, name).arg(store)?;
    let second_word = Arg::new(alloc, second).required(true);
    let with_second = with_store.arg(second_word)?;
    let session = Arg::new(alloc, "SESSION");
    with_second.arg(session)
}

// A command of this name, which makes a store of others: the store that is made, a configuration, a number, the store of which most is known, and
// any number of nodes'; the third and the fourth word are called so.
fn recover_command<'a>(
    alloc: Global,
    name: &'a str,
    number: &'a str,
    store: &'a str,
) -> Result<Command<'a>, AllocError>
    ensures { IfOk result (IsAddedAs (on_recover name.entry.now number.entry.now store.entry.now).top) }
{
    let new = Arg::new(alloc, "NEW").required(true);
    let with_new = Command::new(alloc, name).arg(new)?;
    let config = Arg::new(alloc, "CONFIG").required(true);
    let with_config = with_new.arg(config)?;
    let number_word = Arg::new(alloc, number).required(true);
    let with_number = with_config.arg(number_word)?;
    let store_word = Arg::new(alloc, store).required(true);
    let with_store = with_number.arg(store_word)?;
    let nodes = Arg::new(alloc, "NODE").action(ArgAction::Append);
    with_store.arg(nodes)
}

// The program with this command more, if there was memory to make it.
fn with_command<'a>(
    program: Command<'a>,
    command: Result<Command<'a>, AllocError>,
) -> Result<Command<'a>, AllocError>
    ensures { (shape : Shape) → IfOk command.entry (IsAddedAs shape) → IfOk result (λ all. app_of all ≡ with_subcommand (app_of program.entry) shape) }
{
    match command {
        Ok(command) => program.subcommand(command),
        Err(error) => {
            drop(program);
            Err(error)
        }
    }
}

// The program with a command on a file for each of these names.
fn with_file_commands<'a>(
    alloc: Global,
    mut program: Command<'a>,
    names: &[&'a str],
) -> Result<Command<'a>, AllocError>
    ensures { IfOk result (λ command. app_of command ≡ with_files (app_of program.entry) (map (λ name. name.now) names.entry.now)) }
{
    for name in names {
        program = with_command(program, one_word_command(alloc, name, "FILE"))?;
    }
    Ok(program)
}

// The program with its commands on files and on one store.
fn with_store_commands<'a>(alloc: Global) -> Result<Command<'a>, AllocError>
    ensures { IfOk result (λ command. app_of command ≡ on_stores) }
{
    let bare = Command::new(alloc, "csi-replay").subcommand_required(true);
    let names = ["answer", "show", "run", "frames", "draw"];
    let three = with_file_commands(alloc, bare, &names)?;
    let four = with_command(three, store_command(alloc, "controller", "CONFIG"))?;
    let five = with_command(four, session_command(alloc, "node", "ID"))?;
    let six = with_command(five, session_command(alloc, "orchestrator", "CONFIG"))?;
    with_command(six, one_word_command(alloc, "record", "DB"))
}

// The program with all its commands.
fn with_all_commands<'a>(alloc: Global) -> Result<Command<'a>, AllocError>
    ensures { IfOk result (λ command. app_of command ≡ all_words) }
{
    let stores = with_store_commands(alloc)?;
    let with_one = with_command(
        stores,
        recover_command(alloc, "recover", "SESSION", "CONTROLLER"),
    )?;
    with_command(
        with_one,
        recover_command(alloc, "recover-controller", "NEXT", "ORCHESTRATOR"),
    )
}

// What the words mean to `clap`.
fn matches_of<'a>(alloc: Global, words: &'a [String]) -> Result<ArgMatches<'a>, Error>
    ensures read { IfOk result (λ matches. subcommand_rows_of matches ≡ subcommand_of all_words (map string_bytes words.entry.now)) }
    ensures refused { IfErr result (λ error. takes all_words (map string_bytes words.entry.now) ≡ true → kind_of error ≡ OutOfMemory) }
{
    let program = with_all_commands(alloc)?;
    program.try_get_matches_from(words)
}

// The ending where words are refused so.
fn ending_of(kind: ErrorKind) -> Ending
    ensures is { result ≡ ending_of_words kind }
    ensures ends { EndsWords result }
{
    match kind {
        ErrorKind::OutOfMemory => Ending::Memory,
        _ => Ending::Usage,
    }
}

// The first text of the word that is called so.
fn word<'a>(matches: &ArgMatches<'a>, id: &str) -> Option<&'a str>
    ensures { option_map (λ text. text.now) result ≡ first_of id.now (rows_of (found_of matches.now)) }
{
    matches.get_str(id)
}

// A command on a file, and the path of its file.
fn on_file<'a>(matches: &ArgMatches<'a>, command: FileCommand) -> Option<CommandLine<'a>>
    ensures { option_map named_by result ≡ on_file_in command (rows_of (found_of matches.now)) }
{
    let path = word(matches, "FILE")?;
    Some(CommandLine::File(command, path))
}

// The controller's store and configuration.
fn controller<'a>(matches: &ArgMatches<'a>) -> Option<CommandLine<'a>>
    ensures { option_map named_by result ≡ controller_in (rows_of (found_of matches.now)) }
{
    let store = word(matches, "DB")?;
    let config = word(matches, "CONFIG")?;
    Some(CommandLine::Controller { store, config })
}

// The node's store, its id, and the session of its joining, where it is there.
fn node<'a>(matches: &ArgMatches<'a>) -> Option<CommandLine<'a>>
    ensures { option_map named_by result ≡ node_in (rows_of (found_of matches.now)) }
{
    let store = word(matches, "DB")?;
    let id = word(matches, "ID")?;
    let session = word(matches, "SESSION");
    Some(CommandLine::Node { store, id, session })
}

// The orchestrator's store and configuration, and the session that begins, where it is there.
fn orchestrator<'a>(matches: &ArgMatches<'a>) -> Option<CommandLine<'a>>
    ensures { option_map named_by result ≡ orchestrator_in (rows_of (found_of matches.now)) }
{
    let store = word(matches, "DB")?;
    let config = word(matches, "CONFIG")?;
    let session = word(matches, "SESSION");
    Some(CommandLine::Orchestrator {
        store,
        config,
        session,
    })
}

// The store of which the record is asked for.
fn record<'a>(matches: &ArgMatches<'a>) -> Option<CommandLine<'a>>
    ensures { option_map named_by result ≡ record_in (rows_of (found_of matches.now)) }
{
    let store = word(matches, "DB")?;
    Some(CommandLine::Record(store))
}

// Words of a command line, copied.
fn copied_texts<'a>(alloc: Global, found: &[&'a str]) -> Result<Vec<&'a str>, AllocError>
    ensures { IfOk result (λ texts. map (λ text. text.now) texts.items ≡ map (λ text. text.now) found.now) }
{
    let mut texts = Vec::new(alloc);
    for text in found {
        texts.push(*text)?;
    }
    Ok(texts)
}

// The texts of the word that is called so, however many there are.
fn texts<'a>(alloc: Global, matches: &ArgMatches<'a>, id: &str) -> Result<Vec<&'a str>, AllocError>
    ensures { IfOk result (λ texts. map (λ text. text.now) texts.items ≡ texts_of id.now (rows_of (found_of matches.now))) }
{
    match matches.get_strs(id) {
        Some(found) => copied_texts(alloc, found),
        None => Ok(Vec::new(alloc)),
    }
}

// The store that is made, and those that it is made of; the third and the fourth word are called so.
fn made_of<'a>(
    alloc: Global,
    matches: &ArgMatches<'a>,
    number: &str,
    store: &str,
) -> Result<Option<MadeOf<'a>>, AllocError>
    ensures { IfOk result (λ found. option_map made_of_by found ≡ made_of_in number.now store.now (rows_of (found_of matches.now))) }
{
    let nodes = texts(alloc, matches, "NODE")?;
    let Some(new) = word(matches, "NEW") else {
        return Ok(None);
    };
    let Some(config) = word(matches, "CONFIG") else {
        return Ok(None);
    };
    let Some(number) = word(matches, number) else {
        return Ok(None);
    };
    let Some(kept) = word(matches, store) else {
        return Ok(None);
    };
    Ok(Some(MadeOf {
        new,
        config,
        number,
        kept,
        nodes,
    }))
}

// The recovery of an orchestrator's store.
fn recover<'a>(
    alloc: Global,
    matches: &ArgMatches<'a>,
) -> Result<Option<CommandLine<'a>>, AllocError>
    ensures { IfOk result (λ line. option_map named_by line ≡ recover_in (rows_of (found_of matches.now))) }
{
    match made_of(alloc, matches, "SESSION", "CONTROLLER")? {
        Some(words) => Ok(Some(CommandLine::Recover(words))),
        None => Ok(None),
    }
}

// That of a controller's.
fn recover_controller<'a>(
    alloc: Global,
    matches: &ArgMatches<'a>,
) -> Result<Option<CommandLine<'a>>, AllocError>
    ensures { IfOk result (λ line. option_map named_by line ≡ recover_controller_in (rows_of (found_of matches.now))) }
{
    match made_of(alloc, matches, "NEXT", "ORCHESTRATOR")? {
        Some(words) => Ok(Some(CommandLine::RecoverController(words))),
        None => Ok(None),
    }
}

// The command of this name, with its words, where they are few.
fn command_of<'a>(name: &str, matches: &ArgMatches<'a>) -> Option<CommandLine<'a>>
    ensures { option_map named_by result ≡ few_in name.now (rows_of (found_of matches.now)) }
{
    match name {
        "answer" => on_file(matches, FileCommand::Answer),
        "show" => on_file(matches, FileCommand::Show),
        "run" => on_file(matches, FileCommand::Schedule(ScheduleCommand::Run)),
        "frames" => on_file(matches, FileCommand::Schedule(ScheduleCommand::Frames)),
        "draw" => on_file(matches, FileCommand::Schedule(ScheduleCommand::Draw)),
        "controller" => controller(matches),
        "node" => node(matches),
        "orchestrator" => orchestrator(matches),
        "record" => record(matches),
        _ => None,
    }
}

// The command of this name, with its words.
fn any_command_of<'a>(
    alloc: Global,
    name: &str,
    matches: &ArgMatches<'a>,
) -> Result<Option<CommandLine<'a>>, AllocError>
    ensures { IfOk result (λ line. option_map named_by line ≡ named_in name.now (rows_of (found_of matches.now))) }
{
    match name {
        "recover" => recover(alloc, matches),
        "recover-controller" => recover_controller(alloc, matches),
        _ => Ok(command_of(name, matches)),
    }
}

// The command that was entered, with its words.
fn command_in<'a>(
    alloc: Global,
    matches: &ArgMatches<'a>,
) -> Result<Option<CommandLine<'a>>, AllocError>
    ensures { IfOk result (λ line. option_map named_by line ≡ command_entered (subcommand_rows_of matches.now)) }
{
    match matches.subcommand() {
        Some((name, command)) => any_command_of(alloc, name, command),
        None => Ok(None),
    }
}

/// The command that the words name, with the texts behind it, or the help that they ask for, which takes no memory; `words` begins with the
/// program's own name. `Usage` for all other words, and `Memory` where an allocation was refused. Nothing is asked of the texts.
pub fn parse<'a>(alloc: Global, words: &'a [String]) -> Result<CommandLine<'a>, Ending>
    ensures help { (help : OneHelp) → asked (map string_bytes words.entry.now) ≡ Some help → result ≡ Ok (CommandLine.Help help) }
    ensures read { asked (map string_bytes words.entry.now) ≡ None
        → IfOk result (λ line. read (map string_bytes words.entry.now) ≡ Some (named_by line)) }
    ensures refused { IfErr result (λ ending. is_some (read (map string_bytes words.entry.now)) ≡ true
        → takes all_words (map string_bytes words.entry.now) ≡ true → ending ≡ Ending.Memory) }
    ensures ends { IfErr result EndsWords }
{
    if let Some(help) = help_asked(words) {
        return Ok(CommandLine::Help(help));
    }
    let matches = match matches_of(alloc, words) {
        Ok(matches) => matches,
        Err(error) => return Err(ending_of(error.kind())),
    };
    match command_in(alloc, &matches) {
        Ok(Some(line)) => Ok(line),
        Ok(None) => Err(Ending::Usage),
        Err(_) => Err(Ending::Memory),
    }
}
