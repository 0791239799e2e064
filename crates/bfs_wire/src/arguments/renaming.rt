// The arguments of RENAME (RFC 1094 section 2.2.12).
ghost use Rattle.bfs_model.specs.Bytes.Arguments as model;
ghost use Rattle.bfs_wire.specs.Calls.{IsReadAs};

use crate::arguments::Arguments;
use crate::call::NfsCall;

#[tactic(auto, unfolding(bfs_model::specs::Bytes::Arguments::rename_at))]
pub(crate) fn rename<'a>(arguments: &mut Arguments<'a>) -> Option<NfsCall<'a>>
    ensures { IsReadAs (model.rename_at arguments.old) result arguments.new }
{
    Some(NfsCall::Rename {
        from: arguments.file()?,
        from_name: arguments.name()?,
        to: arguments.file()?,
        to_name: arguments.name()?,
    })
}
