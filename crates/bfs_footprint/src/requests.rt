ghost use Rattle.std.specs.Prelude.{◌≡◌, [], ◌++◌, IsTrue};
ghost use Rattle.bfs_model.specs.Server.Conflicts.{resolved_of};
ghost use Rattle.bfs_model.specs.Server.Footprints.{known, ids_in, footprint_of};
ghost use Rattle.bfs_tree.specs.Tree.{at_home, reach_of};
ghost use Rattle.bfs_footprint.specs.Seen.{footprint_seen};

use crate::calls::footprint;
use crate::footprints::Footprint;
use crate::resolved::{ResolvedIn, resolved_in};
use bfs_rpc::parse_call;
use bfs_tree::Tree;
use bfs_types::{Context, Ordinal, Time};
use bfs_wire::parse_args;

/// What a request touches, and where its call finds that out.
#[derive(Debug, Drop)]
pub struct Touch {
    pub footprint: Footprint,
    pub resolved: ResolvedIn,
}

/// What the request of these bytes touches under its ordinal, in a batch of that effective time, found on the inodes before it. A
/// request that is refused, or whose arguments are garbage, touches nothing. The tree is whole. It takes no memory.
pub fn touch_of(tree: &Tree, ordinal: Ordinal, time: Time, request: &[u8]) -> Touch
    requires whole { IsTrue ((reach_of tree.now).whole) }
    ensures footprint { footprint_seen result.footprint ≡ footprint_of (at_home tree.now) ordinal time request.now }
    ensures resolved { ids_in result.resolved.first ++ ids_in result.resolved.second ≡ resolved_of request.now }
{
    let Ok(call) = parse_call(request) else {
        return nothing();
    };
    let Ok(arguments) = parse_args(call.proc, call.args) else {
        return nothing();
    };
    let context = Context {
        ordinal,
        time,
        caller: call.cred,
    };
    Touch {
        footprint: footprint(tree, &context, &arguments),
        resolved: resolved_in(&arguments),
    }
}

fn nothing() -> Touch
    ensures footprint { footprint_seen result.footprint ≡ known [] [] }
    ensures resolved { ids_in result.resolved.first ++ ids_in result.resolved.second ≡ [] }
{
    Touch {
        footprint: Footprint::none(),
        resolved: ResolvedIn::nowhere(),
    }
}
