//! A frame that borrows its texts from the bytes that it was read from. No type in it has a model, though it may refer to one that
//! has, since what is lent by a `&mut` may have none.
use csi_types::{CallRef, Kind, Number, Status};

#[derive(Clone, Copy)]
pub(crate) enum PartyRef<'a> {
    Controller,
    Node(&'a str),
}

#[derive(Clone, Copy)]
pub(crate) struct ReplyRef<'a> {
    pub status: Status,
    // 0 for none.
    pub id: u64,
    pub detail: &'a str,
}

#[derive(Clone, Copy)]
pub(crate) enum BodyRef<'a> {
    Call(CallRef<'a>),
    Reply(Kind, ReplyRef<'a>),
}

/// A frame whose texts are slices of the bytes that it was read from.
#[derive(Clone, Copy)]
pub(crate) struct BorrowedFrame<'a> {
    pub number: Number,
    pub party: PartyRef<'a>,
    pub body: BodyRef<'a>,
}
