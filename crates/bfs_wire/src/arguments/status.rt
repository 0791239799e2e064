// The arguments of STATFS (RFC 1094 section 2.2.18).
ghost use Rattle.bfs_model.specs.Bytes.Arguments as model;
ghost use Rattle.bfs_wire.specs.Calls.{IsReadAs};

use crate::arguments::Arguments;
use crate::call::NfsCall;

#[tactic(auto, unfolding(bfs_model::specs::Bytes::Arguments::file_at))]
pub(crate) fn file_system_status<'a>(arguments: &mut Arguments<'a>) -> Option<NfsCall<'a>>
    ensures { IsReadAs (model.file_at model.file_system_status arguments.old) result arguments.new }
{
    Some(NfsCall::FileSystemStatus {
        file: arguments.file()?,
    })
}
