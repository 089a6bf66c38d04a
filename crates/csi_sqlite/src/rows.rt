//! The statements on the table `parts`.
ghost use Rattle.std.specs.Prelude.{◌≡◌, ◌↔◌, ◌⊎◌, ◌∷◌, [], List, IsTrue, map, false, Err, IfOk, IfErr, OnOk, IsOk};
ghost use Rattle.sqlite.specs.State.{HasCleanDisk, IsUnchanged, Survives};
ghost use Rattle.sqlite.specs.Held.{state};
ghost use Rattle.sqlite.specs.Tree.{Trees};
ghost use Rattle.sqlite.specs.Order.{Row as Cells};
ghost use Rattle.csi_sqlite.specs.Public.Declared.{parts_schema};
ghost use Rattle.csi_sqlite.specs.Public.Rows.{KeyedRow, cells, without, AreRising, AreByKey, StoresRows, HasColumns, HasRows, IsAtRest, IsBlank, IsInputError};
ghost use Rattle.csi_sqlite.specs.Public.Listed.{ListsOther};
ghost use Rattle.csi_sqlite.specs.Public.Running.{RunsInside};
ghost use Rattle.csi_sqlite.specs.Private.Changing.{changed_rows, ChangesOrNot};
ghost use Rattle.csi_sqlite.specs.Public.Statements.{RefusesToMake, GivesRows, RefusesToRead, Inserts, PutsRow, RefusesToChange, RefusesToInsert, RefusesToPut, RemovesRow, RefusesToRemove};

use crate::listed::{lists_nothing, lists_parts};
use sqlite::{Alter, Connection, Error, ErrorCode, Row, Transaction, params};

/// Whether the database lists the table as it is declared, and nothing else; nothing is done, and no memory is taken.
pub fn has_table<S: Alter>(connection: &Connection<S>) -> bool
    ensures { IsTrue result ↔ ((state S.Store connection.now).now.schema ≡ parts_schema) }
{
    lists_parts(connection.schema())
}

/// Whether the database lists anything but that table; nothing is done, and no memory is taken.
pub fn has_other<S: Alter>(connection: &Connection<S>) -> bool
    ensures { IsTrue result ↔ ListsOther (state S.Store connection.now).now.schema }
{
    let schema = connection.schema();
    !lists_parts(schema) && !lists_nothing(schema)
}

/// Makes the table where the database lists nothing; the statement is its own transaction. Where it lists the table as it is declared,
/// alone, nothing is done, and where it lists anything else that is refused as `NotADatabase`, and nothing is done either. Any other
/// error is SQLite's own at the statement.
pub fn make_table<S: Alter>(connection: &mut Connection<S>) -> Result<(), Error>
    ensures made { HasCleanDisk (state S.Store connection.new) → IsBlank (state S.Store connection.old) → IsAtRest (state S.Store connection.old)
        → OnOk result (HasRows (state S.Store connection.new) [] × IsAtRest (state S.Store connection.new)) }
    ensures found { HasCleanDisk (state S.Store connection.new) → (rows : List KeyedRow) → IsTrue (state S.Store connection.old).is_open →
        StoresRows (state S.Store connection.old).now.trees rows → IsAtRest (state S.Store connection.old)
        → OnOk result (HasRows (state S.Store connection.new) rows × IsAtRest (state S.Store connection.new)) }
    ensures crash_made { HasCleanDisk (state S.Store connection.new) → IsBlank (state S.Store connection.old) → (db : Trees) →
        (state S.Store connection.new).may_leave db → (state S.Store connection.old).may_leave db ⊎ StoresRows db [] }
    ensures crash_found { HasCleanDisk (state S.Store connection.new) → (rows : List KeyedRow) → IsTrue (state S.Store connection.old).is_open →
        StoresRows (state S.Store connection.old).now.trees rows
        → (db : Trees) → (state S.Store connection.new).may_leave db → (state S.Store connection.old).may_leave db }
    ensures clean { HasCleanDisk (state S.Store connection.new) → HasCleanDisk (state S.Store connection.old) }
    ensures there { (state S.Store connection.old).now.schema ≡ parts_schema → IsOk result × (connection.new ≡ connection.old) }
    ensures other { ListsOther (state S.Store connection.old).now.schema → (result ≡ Err (Error.SqliteFailure ErrorCode.NotADatabase))
        × (connection.new ≡ connection.old) }
    ensures refused { HasCleanDisk (state S.Store connection.new) → ¬ ListsOther (state S.Store connection.old).now.schema →
        IfErr result (RefusesToMake (state S.Store connection.old) (state S.Store connection.new)) }
{
    let schema = connection.schema();
    if lists_parts(schema) {
        return Ok(());
    }
    if !lists_nothing(schema) {
        return Err(Error::SqliteFailure(ErrorCode::NotADatabase));
    }
    connection.execute(
        "CREATE TABLE IF NOT EXISTS parts (key BLOB NOT NULL PRIMARY KEY, value BLOB NOT NULL)",
        &[],
    )?;
    Ok(())
}

/// All rows, by rising key, whatever values they are. Whatever the database has, nothing is written, and no transaction is left open.
/// An error is SQLite's own at the statement.
pub fn all_rows<S: Alter>(connection: &mut Connection<S>) -> Result<Vec<Row>, Error>
    ensures by_key { HasCleanDisk (state S.Store connection.new) → (columns : List Cells) → HasColumns (state S.Store connection.old) columns →
        IfOk result (λ all. AreByKey columns all.items) }
    ensures rows { HasCleanDisk (state S.Store connection.new) → (rows : List KeyedRow) → HasRows (state S.Store connection.old) rows → AreRising rows
        → IfOk result (λ all. all.items ≡ map cells rows) }
    ensures same { HasCleanDisk (state S.Store connection.new) → (columns : List Cells) → HasColumns (state S.Store connection.old) columns
        → OnOk result (IsUnchanged (state S.Store connection.old) (state S.Store connection.new)) }
    ensures given { HasCleanDisk (state S.Store connection.new) →
        IfOk result (λ all. GivesRows all.items (state S.Store connection.old) (state S.Store connection.new)) }
    ensures refused { HasCleanDisk (state S.Store connection.new) → IfErr result (RefusesToRead (state S.Store connection.old) (state S.Store connection.new)) }
    ensures outside { (state S.Store connection.old).in_transaction ≡ false → (state S.Store connection.new).in_transaction ≡ false }
    ensures known { HasCleanDisk (state S.Store connection.new) → (columns : List Cells) → HasColumns (state S.Store connection.old) columns →
        IfErr result (λ error. ¬ IsInputError error) }
    ensures survives { Survives (state S.Store connection.old) (state S.Store connection.new) (λ _. ⊥) }
{
    connection.query_all("SELECT key, value FROM parts ORDER BY key", &[])
}

// Gives the row of a key this value, and answers whether there is one. An error is SQLite's own at the statement.
fn change_row<S: Alter>(
    transaction: &mut Transaction<'_, S>,
    key: &[u8],
    value: &[u8],
) -> Result<bool, Error>
    ensures { RunsInside S.Store HasRows (λ there. changed_rows there key.now value.now)
        (λ there before after. ChangesOrNot there key.now value.now (state S.Store before) (state S.Store after))
        (λ before after. RefusesToChange key.now value.now (state S.Store before) (state S.Store after))
        transaction.old.conn transaction.new.conn result }
{
    let count = transaction.execute(
        "UPDATE parts SET value = ?2 WHERE key = ?1",
        params![key, value],
    )?;
    Ok(count != 0)
}

// Puts a row in, of a key that no row has. An error is SQLite's own at the statement.
fn insert_row<S: Alter>(
    transaction: &mut Transaction<'_, S>,
    key: &[u8],
    value: &[u8],
) -> Result<(), Error>
    ensures { RunsInside S.Store HasRows (λ _ rows. (record { key = key.now; value = value.now }) ∷ rows)
        (λ _ before after. Inserts key.now value.now (state S.Store before) (state S.Store after))
        (λ before after. RefusesToInsert key.now value.now (state S.Store before) (state S.Store after))
        transaction.old.conn transaction.new.conn result }
{
    transaction.execute(
        "INSERT INTO parts (key, value) VALUES (?1, ?2)",
        params![key, value],
    )?;
    Ok(())
}

/// Puts a row in, in place of the one of its key if there is one. An error is SQLite's own at one of its two statements.
pub fn put_row<S: Alter>(
    transaction: &mut Transaction<'_, S>,
    key: &[u8],
    value: &[u8],
) -> Result<(), Error>
    ensures { RunsInside S.Store HasRows (λ _ rows. (record { key = key.now; value = value.now }) ∷ without key.now rows)
        (λ _. PutsRow S.Store key.now value.now)
        (RefusesToPut S.Store key.now value.now)
        transaction.old.conn transaction.new.conn result }
{
    if change_row(transaction, key, value)? {
        return Ok(());
    }
    insert_row(transaction, key, value)
}

/// Takes out the row of a key, if there is one. An error is SQLite's own at the statement.
pub fn remove_row<S: Alter>(transaction: &mut Transaction<'_, S>, key: &[u8]) -> Result<(), Error>
    ensures { RunsInside S.Store HasRows (λ _. without key.now)
        (λ _ before after. RemovesRow key.now (state S.Store before) (state S.Store after))
        (λ before after. RefusesToRemove key.now (state S.Store before) (state S.Store after))
        transaction.old.conn transaction.new.conn result }
{
    transaction.execute("DELETE FROM parts WHERE key = ?1", params![key])?;
    Ok(())
}
