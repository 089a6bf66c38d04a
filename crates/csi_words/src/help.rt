//! The words that ask for help.
ghost use Rattle.std.specs.Prelude.{◌≡◌, map, string_bytes};
ghost use Rattle.csi_words.specs.Public.Help.{help_alone as alone, help_asked as asked, help_behind as behind, help_on as on};

/// What help is about.
#[derive(Clone, Copy, Debug, PartialEq, Eq)]
pub enum Help {
    /// The program: all its subcommands.
    Program,
    /// The versions, of the program and of what it reads and writes.
    Version,
    /// `answer FILE`.
    Answer,
    /// `show FILE`.
    Show,
    /// `run FILE`.
    Run,
    /// `frames FILE`.
    Frames,
    /// `draw FILE`.
    Draw,
    /// `controller DB CONFIG`.
    Controller,
    /// `node DB ID [SESSION]`.
    Node,
    /// `orchestrator DB CONFIG`.
    Orchestrator,
    /// `record DB`.
    Record,
    /// `recover NEW.db CONFIG SESSION CONTROLLER.db NODE.db..`.
    Recover,
    /// `recover-controller NEW.db CONFIG NEXT ORCHESTRATOR.db NODE.db..`.
    RecoverController,
}

// The help that this word alone asks for.
fn help_alone(word: &str) -> Option<Help>
    ensures { result ≡ alone word.now }
{
    match word {
        "--help" | "-h" => Some(Help::Program),
        "--version" => Some(Help::Version),
        _ => None,
    }
}

// Help on the subcommand of this name.
fn help_on(name: &str) -> Option<Help>
    ensures { result ≡ on name.now }
{
    match name {
        "answer" => Some(Help::Answer),
        "show" => Some(Help::Show),
        "run" => Some(Help::Run),
        "frames" => Some(Help::Frames),
        "draw" => Some(Help::Draw),
        "controller" => Some(Help::Controller),
        "node" => Some(Help::Node),
        "orchestrator" => Some(Help::Orchestrator),
        "record" => Some(Help::Record),
        "recover" => Some(Help::Recover),
        "recover-controller" => Some(Help::RecoverController),
        _ => None,
    }
}

// The help that this word asks for behind the name of a subcommand.
fn help_behind(name: &str, word: &str) -> Option<Help>
    ensures { result ≡ behind name.now word.now }
{
    match word {
        "--help" | "-h" => help_on(name),
        _ => None,
    }
}

// The help that the words ask for, and nothing else.
pub(crate) fn help_asked(words: &[String]) -> Option<Help>
    ensures { result ≡ asked (map string_bytes words.now) }
{
    match words {
        [_, word] => help_alone(word.as_str()),
        [_, name, word] => help_behind(name.as_str(), word.as_str()),
        _ => None,
    }
}
