//! Members of an object of JSON that are arrays.
ghost use Rattle.std.specs.Prelude.{◌≡◌, ◌++◌, ◌∷◌, OnOk};
ghost use Rattle.json.specs.Token.{key as key_token};
ghost use Rattle.json.specs.Tree.{json_tokens};
ghost use Rattle.serde_json.specs.Written.{outline};
ghost use Rattle.csi_reports.specs.Public.Entries.{entries};

use crate::entries::{Entry, write_items};
use crate::writer::JsonWriter;
use std::alloc::AllocError;

/// Writes a member that is the values of these, in order, as an array.
pub fn put_array<T: Entry>(out: &mut JsonWriter, key: &str, items: &[T]) -> Result<(), AllocError>
    ensures { OnOk result (out.new ≡ out.old ++ key_token key.now ∷ json_tokens (outline (entries T.entry items.now))) }
{
    out.key(key)?;
    out.begin_array()?;
    write_items(out, items)?;
    out.end_array()
}
