// The arguments of REMOVE and RMDIR (RFC 1094 sections 2.2.11 and 2.2.16).
ghost use Rattle.bfs_model.specs.Bytes.Arguments as model;
ghost use Rattle.bfs_wire.specs.Calls.{IsReadAs};

use crate::arguments::Arguments;
use crate::call::NfsCall;

#[tactic(auto, unfolding(bfs_model::specs::Bytes::Arguments::named_at))]
pub(crate) fn remove<'a>(arguments: &mut Arguments<'a>) -> Option<NfsCall<'a>>
    ensures { IsReadAs (model.named_at model.remove arguments.old) result arguments.new }
{
    Some(NfsCall::Remove {
        dir: arguments.file()?,
        name: arguments.name()?,
    })
}

#[tactic(auto, unfolding(bfs_model::specs::Bytes::Arguments::named_at))]
pub(crate) fn remove_directory<'a>(arguments: &mut Arguments<'a>) -> Option<NfsCall<'a>>
    ensures { IsReadAs (model.named_at model.remove_directory arguments.old) result arguments.new }
{
    Some(NfsCall::RemoveDirectory {
        dir: arguments.file()?,
        name: arguments.name()?,
    })
}
