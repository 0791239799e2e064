// Where replicas stand, as items of XDR (RFC 4506).
use bfs_node::{Lag, Node};
use bfs_policy::Standing;
use bfs_types::Memory;
use bfs_xdr::{Reader, XdrError, put_u32, put_u64};
use std::alloc::Global;

/// A replica tells where it stands.
#[derive(Clone, Copy, Drop)]
pub(crate) struct Status {
    pub(crate) sender: u32,
    pub(crate) standing: Standing,
}

impl Status {
    /// A node tells.
    pub(crate) fn of(node: &Node) -> Status {
        Status {
            sender: node.number(),
            standing: standing_of(node),
        }
    }

    pub(crate) fn read(payload: &[u8]) -> Result<Status, XdrError> {
        let mut reader = Reader::new(payload);
        Ok(Status {
            sender: reader.u32()?,
            standing: Standing {
                view: reader.u64()?,
                asked: reader.u64()?,
                last: reader.u64()?,
                stable: reader.u64()?,
            },
        })
    }

    pub(crate) fn text(&self, alloc: Global) -> Result<Vec<u8>, Memory> {
        let mut text = Vec::new(alloc);
        put_u32(&mut text, self.sender)?;
        put_u64(&mut text, self.standing.view)?;
        put_u64(&mut text, self.standing.asked)?;
        put_u64(&mut text, self.standing.last)?;
        put_u64(&mut text, self.standing.stable)?;
        Ok(text)
    }
}

/// Where a node stands.
pub(crate) fn standing_of(node: &Node) -> Standing {
    Standing {
        view: node.view(),
        asked: node.view_asked(),
        last: node.last_executed(),
        stable: node.stable_number(),
    }
}

/// How far one is that stands there.
pub(crate) fn lag_of(standing: Standing) -> Lag {
    Lag {
        view: standing.view,
        last: standing.last,
        stable: standing.stable,
    }
}
