use crate::cred::Cred;
use crate::ordinal::Ordinal;
use crate::time::Time;
use std::marker::Model;

/// What a call is carried out under.
#[derive(Clone, Copy, Debug, PartialEq, Eq)]
pub struct Context {
    /// The ordinal of its request, under which it makes an inode or an entry.
    pub ordinal: Ordinal,
    /// The effective time of its batch.
    pub time: Time,
    /// For whom it is made.
    pub caller: Cred,
}

impl Model for Context {
    ghost use Rattle.bfs_model.specs.Server.Context as model;

    ghost Value = { model.Context };

    ghost view = { λ context. record { ordinal = context.ordinal; time = context.time; caller = context.caller } };

    ghost inverse = { λ context. record { ordinal = context.ordinal; time = context.time; caller = context.caller } };
}
