// The arguments of GETATTR and SETATTR (RFC 1094 sections 2.2.2 and 2.2.3).
ghost use Rattle.bfs_model.specs.Bytes.Arguments as model;
ghost use Rattle.bfs_wire.specs.Calls.{IsReadAs};

use crate::arguments::Arguments;
use crate::call::NfsCall;

#[tactic(auto, unfolding(bfs_model::specs::Bytes::Arguments::file_at))]
pub(crate) fn get_attributes<'a>(arguments: &mut Arguments<'a>) -> Option<NfsCall<'a>>
    ensures { IsReadAs (model.file_at model.get_attributes arguments.old) result arguments.new }
{
    Some(NfsCall::GetAttr {
        file: arguments.file()?,
    })
}

#[tactic(auto, unfolding(bfs_model::specs::Bytes::Arguments::set_attributes_at))]
pub(crate) fn set_attributes<'a>(arguments: &mut Arguments<'a>) -> Option<NfsCall<'a>>
    ensures { IsReadAs (model.set_attributes_at arguments.old) result arguments.new }
{
    Some(NfsCall::SetAttr {
        file: arguments.file()?,
        settings: arguments.settings()?,
    })
}
