ghost use Rattle.std.specs.Prelude.{◌≡◌};
ghost use Rattle.bfs_pending.specs.Names.{name_of};

use bfs_messages::{Request, Signed};

/// What a request is found by: its client, and the client's timestamp.
#[derive(Clone, Copy, Debug, PartialEq, Eq, PartialOrd, Ord)]
pub(crate) struct Name {
    pub(crate) client: u32,
    pub(crate) timestamp: u64,
}

pub(crate) fn name_of(signed: &Signed<Request>) -> Name
    ensures { result ≡ name_of signed.now }
{
    Name {
        client: signed.message.client(),
        timestamp: signed.message.timestamp(),
    }
}
