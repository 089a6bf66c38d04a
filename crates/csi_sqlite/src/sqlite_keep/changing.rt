//! Changes of the table.
ghost use Rattle.std.specs.Prelude.{map};
ghost use Rattle.sqlite.specs.Held.{Held, state};
ghost use Rattle.sqlite.specs.Steps.{FailsToCommit};
ghost use Rattle.csi_stores.specs.Public.Part.{part_change};
ghost use Rattle.csi_stores.specs.Public.Content.{changed_to, all_changed};
ghost use Rattle.csi_sqlite.specs.Public.Refusals.{MakesChange, RefusesChange, IsUndone, RefusesOneOf, RefusesChanges};
ghost use Rattle.csi_sqlite.specs.Public.Running.{RunsInside, ChangesAtOnce};
ghost use Rattle.csi_sqlite.specs.Public.Tables.{HasParts};

use crate::rows::{put_row, remove_row};
use csi_stores::Part;
use sqlite::{Alter, Connection, Error, ErrorCode, Transaction};

// Makes one change. An error is SQLite's own at its statement.
fn change<S: Alter>(transaction: &mut Transaction<'_, S>, part: &Part) -> Result<(), Error>
    ensures { RunsInside S.Store HasParts (λ _. changed_to (part_change part.now).key (part_change part.now).value)
        (λ _. MakesChange S.Store (part_change part.now).key (part_change part.now).value)
        (RefusesChange S.Store (part_change part.now).key (part_change part.now).value)
        transaction.old.conn transaction.new.conn result }
{
    let key = part.key.to_be_bytes();
    match &part.value {
        Some(value) => put_row(transaction, &key, value),
        None => remove_row(transaction, &key),
    }
}

// Makes the changes, one after another. An error is SQLite's own at one of them, and one that follows at the commit is after them all.
fn change_all<S: Alter>(transaction: &mut Transaction<'_, S>, parts: &[Part]) -> Result<(), Error>
    ensures { RunsInside S.Store HasParts (λ _. all_changed (map part_change parts.now))
        (λ _ before now. (after : Held S) (error : Error) → FailsToCommit (state S.Store now) (state S.Store after) error →
        RefusesOneOf S.Store (map part_change parts.now) before after error)
        (λ before now error. (after : Held S) → IsUndone S.Store now after → RefusesOneOf S.Store (map part_change parts.now) before after error)
        transaction.old.conn transaction.new.conn result }
{
    for part in parts {
        change(transaction, part)?;
    }
    Ok(())
}

/// Makes the changes in a transaction of their own: all, or none. Where none is open before, an error is SQLite's own, to one of the
/// changes or to the commit.
pub(crate) fn change_at_once<S: Alter>(
    connection: &mut Connection<S>,
    parts: &[Part],
) -> Result<(), Error>
    ensures { ChangesAtOnce S.Store (map part_change parts.now) (RefusesChanges S.Store (map part_change parts.now) connection.old connection.new)
        connection.old connection.new result }
{
    if !connection.is_autocommit() {
        return Err(Error::SqliteFailure(ErrorCode::TransactionState));
    }
    let mut transaction = connection.transaction();
    change_all(&mut transaction, parts)?;
    transaction.commit()
}
