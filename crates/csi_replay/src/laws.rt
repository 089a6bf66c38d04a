//! What holds of runs over the store in a file.
ghost use Rattle.sqlite.specs.Held.{state};
ghost use Rattle.csi_replay.specs.Public.Laws.{SqliteOrchestratorRunsLaw, SqliteOrchestratorThreeRunsLaw, SqliteRunsLaw, SqliteThreeRunsLaw};

use csi_orchestration::orchestrator_runs_law;
use csi_plugins::runs_law;
use csi_sqlite::SqliteKeep;
use sqlite::Alter;
use std::io::{Read, Write};

/// A law, and nothing that runs: `runs_law` of two stores in SQLite. Two runs of one plugin over one file, one after another, of which the
/// first was opened, however each ended, are one run, where the disk gave back what was written until the end of each, and the second found
/// one of the contents that the first may have left.
///
/// Each process opens the file as a store of its own kind, `S` and `T`, since the kit ties what is known of two files to the type under which
/// they are opened (`Start`), and what it knows of two pairs under one type may contradict itself. Of what the second one's files hold at first
/// `SqliteKeep::reopened_law` says what its opening finds. The program opens both under one type, `Unknown`, whose contents are empty. That
/// a run of it meets the law at the contents that its files have in truth is the kit's argument, and no proof: no code can read the contents
/// that a type names, so what is proved at each type holds at any contents (`any_contents` of its crate `sqlite_std_file`). This profile's own.
pub fn sqlite_runs_law<S: Alter, T: Alter, R: Read, W: Write>()
    ensures { SqliteRunsLaw (state S.Store) (state T.Store) R.remaining W.contents }
{
    runs_law::<SqliteKeep<S>, SqliteKeep<T>, R, W>();
}

/// A law, and nothing that runs: three runs of one plugin over one file are one run likewise, by the law of two. This profile's own.
pub fn sqlite_three_runs_law<S: Alter, T: Alter, U: Alter, R: Read, W: Write>()
    ensures { SqliteThreeRunsLaw (state S.Store) (state T.Store) (state U.Store) R.remaining W.contents }
{
    sqlite_runs_law::<S, T, R, W>();
    sqlite_runs_law::<T, U, R, W>();
    sqlite_runs_law::<S, U, R, W>();
}

/// A law, and nothing that runs: `orchestrator_runs_law` of two stores in SQLite. Two runs of an orchestrator over one file, one after another,
/// each of which was opened and wrote its first line, however each ended, are one run of the stated machine, with a restart between, where the
/// disk gave back what was written until the end of each, and the second found one of the contents that the first may have left. Of the two
/// stores it is said as by `sqlite_runs_law`. This profile's own.
pub fn sqlite_orchestrator_runs_law<S: Alter, T: Alter, R: Read, W: Write>()
    ensures { SqliteOrchestratorRunsLaw (state S.Store) (state T.Store) R.remaining W.contents }
{
    orchestrator_runs_law::<SqliteKeep<S>, SqliteKeep<T>, R, W>();
}

/// A law, and nothing that runs: so are three, by the law of two, twice. This profile's own.
pub fn sqlite_orchestrator_three_runs_law<S: Alter, T: Alter, U: Alter, R: Read, W: Write>()
    ensures { SqliteOrchestratorThreeRunsLaw (state S.Store) (state T.Store) (state U.Store) R.remaining W.contents }
{
    sqlite_orchestrator_runs_law::<S, T, R, W>();
    sqlite_orchestrator_runs_law::<T, U, R, W>();
}
