//! Receipts of an office.

ghost use Rattle.std.specs.Prelude.{◌≡◌};

use crate::front::{Front, ListName};
use mh_core::Reply;
use std::fmt;
use std::marker::Model;

/// The reply to an accepted event, and the list of controls up to it. Contracts see both.
#[derive(Drop)]
pub struct Receipt<N: ListName> {
    reply: Reply,
    front: Front<N>,
}

impl<N: ListName> Model for Receipt<N> {
    ghost use Rattle.mh_live.specs.Offices.{ReceiptState, coded_receipt};

    ghost Value = { ReceiptState };

    ghost coded = { coded_receipt };

    ghost view = { λ r. record { reply = r.reply; front = r.front } };
}

/// Shows the reply, and the list of controls up to it.
impl<N: ListName> fmt::Debug for Receipt<N> {
    fn fmt<W: fmt::Write>(&self, f: &mut fmt::Formatter<W>) -> fmt::Result {
        write!(f, "Receipt({:?}, {:?})", self.reply, self.front)
    }
}

impl<N: ListName> Receipt<N> {
    /// Returns the receipt of a reply.
    pub(crate) fn new(reply: Reply, front: Front<N>) -> Receipt<N>
        ensures value { result ≡ record { reply = reply; front = front } }
    {
        Receipt { reply, front }
    }

    /// Returns the reply.
    pub fn reply(&self) -> &Reply
        ensures value { result.now ≡ self.now.reply }
    {
        &self.reply
    }

    /// Returns the list of controls up to the event, including the event's own control, if it has
    /// one.
    pub fn front(&self) -> &Front<N>
        ensures value { result.now ≡ self.now.front }
    {
        &self.front
    }
}
