//! What a database lists.
ghost use Rattle.std.specs.Prelude.{◌≡◌, ◌↔◌, [], ◌∷◌, codes, IsTrue};
ghost use Rattle.csi_sqlite.specs.Public.Declared.{no_schema, blob_column, parts_table, parts_index, parts_schema};
ghost use Rattle.csi_sqlite.specs.Private.Listed.{IsKeyedByFirst, IsPlain};

use sqlite_schema::schema::{Column, Index, Kind, Schema, Table};
use sqlite_value::keys::{Collation, Order};
use sqlite_value::value::Value;

// Whether this is a column of this name, of the affinity BLOB, without NULL.
fn is_column(column: &Column, name: &[u8]) -> bool
    ensures { IsTrue result ↔ (column.now ≡ blob_column name.now) }
{
    column.name.as_slice() == name
        && matches!(column.kind, Kind::Any)
        && !column.is_strict
        && column.not_null
        && matches!(column.default, Value::Null)
        && matches!(column.collation, Collation::Binary)
}

// Whether these are the places of the first column alone.
fn is_first(places: &[usize]) -> bool
    ensures { IsTrue result ↔ (places.now ≡ 1 ∷ []) }
{
    matches!(places, [1])
}

// Whether that is the order of bytes.
fn is_rising(orders: &[Order]) -> bool
    ensures { IsTrue result ↔ (orders.now ≡ record { digits = 0 } ∷ []) }
{
    match orders {
        [order] => order.digits == 0,
        _ => false,
    }
}

// Whether the table's one key is its first column.
fn is_keyed(table: &Table) -> bool
    ensures { IsTrue result ↔ IsKeyedByFirst table.now }
{
    let [unique] = table.uniques.as_slice() else {
        return false;
    };
    is_first(unique.as_slice())
        && is_first(table.primary.as_slice())
        && table.key.is_none()
        && is_rising(table.orders.as_slice())
}

// Whether nothing else is asked of the table's rows.
fn is_plain(table: &Table) -> bool
    ensures { IsTrue result ↔ IsPlain table.now }
{
    table.checks.roots.is_empty()
        && table.references.is_empty()
        && table.computed.is_empty()
        && table.stamps.places.is_empty()
        && table.stamps.terms.roots.is_empty()
        && table.stamps.formats.is_empty()
        && !table.is_counted
}

// Whether these are the columns, as they are declared.
fn are_columns(columns: &[Column]) -> bool
    ensures { IsTrue result ↔ (columns.now ≡ blob_column (codes "key") ∷ blob_column (codes "value") ∷ []) }
{
    match columns {
        [key, value] => is_column(key, b"key") && is_column(value, b"value"),
        _ => false,
    }
}

// Whether this is the table, as it is declared.
#[tactic(auto, unfolding(crate::specs::Public::Declared::parts_table))]
fn is_parts(table: &Table) -> bool
    ensures { IsTrue result ↔ (table.now ≡ parts_table) }
{
    table.name.as_slice() == b"parts".as_slice()
        && table.tree == 0
        && are_columns(table.columns.as_slice())
        && is_keyed(table)
        && is_plain(table)
}

// Whether this is the index of its primary key.
fn is_index(index: &Index) -> bool
    ensures { IsTrue result ↔ (index.now ≡ parts_index) }
{
    index.name.as_slice() == b"sqlite_autoindex_parts_1".as_slice()
        && index.tree == 1
        && index.table == 0
        && is_first(index.columns.as_slice())
        && index.order.digits == 0
        && index.is_unique
}

// Whether that table is the one.
fn are_tables(tables: &[Table]) -> bool
    ensures { IsTrue result ↔ (tables.now ≡ parts_table ∷ []) }
{
    match tables {
        [table] => is_parts(table),
        _ => false,
    }
}

// Whether that index is the one.
fn are_indexes(indexes: &[Index]) -> bool
    ensures { IsTrue result ↔ (indexes.now ≡ parts_index ∷ []) }
{
    match indexes {
        [index] => is_index(index),
        _ => false,
    }
}

/// Whether the table as it is declared, with its index, is all that is listed.
#[tactic(auto, unfolding(crate::specs::Public::Declared::parts_schema))]
pub(crate) fn lists_parts(schema: &Schema) -> bool
    ensures { IsTrue result ↔ (schema.now ≡ parts_schema) }
{
    are_tables(schema.tables.as_slice())
        && are_indexes(schema.indexes.as_slice())
        && schema.views.is_empty()
}

/// Whether no table, index or view is listed.
pub(crate) fn lists_nothing(schema: &Schema) -> bool
    ensures { IsTrue result ↔ (schema.now ≡ no_schema) }
{
    schema.tables.is_empty() && schema.indexes.is_empty() && schema.views.is_empty()
}
