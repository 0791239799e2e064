// The arguments of LOOKUP and READDIR (RFC 1094 sections 2.2.5 and 2.2.17).
ghost use Rattle.bfs_model.specs.Bytes.Arguments as model;
ghost use Rattle.bfs_wire.specs.Calls.{IsReadAs};

use crate::arguments::Arguments;
use crate::call::NfsCall;

#[tactic(auto, unfolding(bfs_model::specs::Bytes::Arguments::named_at))]
pub(crate) fn look_up<'a>(arguments: &mut Arguments<'a>) -> Option<NfsCall<'a>>
    ensures { IsReadAs (model.named_at model.look_up arguments.old) result arguments.new }
{
    Some(NfsCall::LookUp {
        dir: arguments.file()?,
        name: arguments.name()?,
    })
}

#[tactic(auto, unfolding(bfs_model::specs::Bytes::Arguments::read_directory_at))]
pub(crate) fn read_directory<'a>(arguments: &mut Arguments<'a>) -> Option<NfsCall<'a>>
    ensures { IsReadAs (model.read_directory_at arguments.old) result arguments.new }
{
    Some(NfsCall::ReadDirectory {
        dir: arguments.file()?,
        cookie: arguments.word()?,
        count: arguments.word()?,
    })
}
