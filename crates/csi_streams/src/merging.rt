//! Parts that wait, of which a later one makes an earlier one idle.
ghost use Rattle.std.specs.Prelude.{◌≡◌, List, map};
ghost use Rattle.csi_stores.specs.Public.Content.{all_changed};
ghost use Rattle.csi_stores.specs.Public.Part.{StoredPart, part_change};

use csi_stores::Part;

// The key of a record's head, which is put in anew by each call that makes something.
const HEAD: u64 = 0;

/// Takes out each part that puts something in under the key 0 where a later part does so too, and no part behind the first takes anything
/// out: what all of them change stays the same, and a commit costs less. It takes no memory.
pub(crate) fn merge_heads(parts: &mut Vec<Part>)
    ensures { (content : List StoredPart) → all_changed (map part_change parts.new.items) content ≡ all_changed (map part_change parts.old.items) content }
{
    let mut at = parts.len();
    let mut is_there = false;
    while at > 0 && parts[at - 1].value.is_some() {
        at -= 1;
        if parts[at].key == HEAD {
            if is_there {
                parts.remove(at);
            }
            is_there = true;
        }
    }
}
