//! Runs over one store, one after another.
ghost use Rattle.csi_stores.specs.Public.Memory.{memory_store};
ghost use Rattle.csi_plugins.specs.Public.Joined.{RunsLaw, ThreeRunsLaw};

use csi_records::record_laws;
use csi_service::{Keep, MemoryKeep};
use std::io::{Read, Write};

/// A law, and nothing that runs: two runs of one plugin over one store, one after another, each by a process of its own and so over a keeper
/// of its own, however each ended, are one run, in which the plugin was opened again between: of as many of the first run's frames as were
/// committed, or of those too that were answered behind them, where their commit was refused, and then of the second's. The second begins
/// with what opening the store again found, which it may always: only being out of memory and a failing device keep it from that, and then it
/// changes nothing. It asks that the first was opened, that the store had a content, and is honest after each run; and of the file system,
/// that between the two the second process finds one of the contents that the first may have left (`Reopens`). This profile's own.
pub fn runs_law<K: Keep, L: Keep, R: Read, W: Write>()
    ensures { RunsLaw (record { seen = K.store; remaining = R.remaining; contents = W.contents }) (record { seen = L.store; remaining = R.remaining; contents = W.contents }) }
{
    record_laws();
}

/// The same law of three runs, by the law of two, twice: the second and a third are one run from the parts that the first left, and so all
/// are; where the second was kept from opening, the third is joined to the first. So it goes on to any number. This profile's own.
pub fn three_runs_law<K: Keep, L: Keep, M: Keep, R: Read, W: Write>()
    ensures { ThreeRunsLaw (record { seen = K.store; remaining = R.remaining; contents = W.contents }) (record { seen = L.store; remaining = R.remaining; contents = W.contents })
        (record { seen = M.store; remaining = R.remaining; contents = W.contents }) }
{
    runs_law::<K, L, R, W>();
    runs_law::<L, M, R, W>();
    runs_law::<K, M, R, W>();
}

/// The law of stores in memory. This profile's own.
pub fn memory_runs_law<R: Read, W: Write>()
    ensures { RunsLaw (record { seen = memory_store; remaining = R.remaining; contents = W.contents }) (record { seen = memory_store; remaining = R.remaining; contents = W.contents }) }
{
    runs_law::<MemoryKeep, MemoryKeep, R, W>();
}
