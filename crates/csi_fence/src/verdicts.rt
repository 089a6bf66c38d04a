//! What a call gets that the fence doesn't let through.
ghost use Rattle.std.specs.Prelude.{◌≡◌, None, IfOk};
ghost use Rattle.csi_types.specs.Model.Replies.{stale_reply};
ghost use Rattle.csi_fence.specs.Public.Line.{GivesCopy};

use crate::answer::Answer;
use crate::fault::CoreFault;
use crate::line::{Line, detail_of};
use crate::table::Table;
use csi_types::{Kind, Reply, Status};
use std::alloc::Global;

/// The refusal of a call that came late.
pub fn stale(alloc: Global, kind: Kind) -> Result<Answer, CoreFault>
    ensures { IfOk result (λ answer. answer ≡ record { kind = kind; reply = stale_reply; row = None }) }
{
    match Line::Refused(Status::Aborted, "stale").reply(alloc) {
        Ok(reply) => Ok(Answer {
            kind,
            reply,
            row: None,
        }),
        Err(fault) => Err(fault),
    }
}

/// The reply that a row keeps, again. Without a detail it takes no memory.
pub fn repeated<T: Table>(alloc: Global, row: &T::Row) -> Result<Answer, CoreFault>
    ensures { GivesCopy (T.plan.kept (T.shown row.now)).reply.detail
        (record { kind = (T.plan.kept (T.shown row.now)).kind; reply = (T.plan.kept (T.shown row.now)).reply; row = None }) result }
{
    let reply = T::reply(row);
    match detail_of(alloc, reply.detail.as_str()) {
        Ok(detail) => Ok(Answer {
            kind: T::kind(row),
            reply: Reply {
                status: reply.status,
                id: reply.id,
                detail,
            },
            row: None,
        }),
        Err(fault) => Err(fault),
    }
}
