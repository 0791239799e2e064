// The arguments of CREATE, LINK, SYMLINK and MKDIR (RFC 1094 sections 2.2.10 and 2.2.13 to 2.2.15).
ghost use Rattle.bfs_model.specs.Bytes.Arguments as model;
ghost use Rattle.bfs_wire.specs.Calls.{IsReadAs};

use crate::arguments::Arguments;
use crate::call::NfsCall;

#[tactic(auto, unfolding(bfs_model::specs::Bytes::Arguments::named_with_settings_at))]
pub(crate) fn create<'a>(arguments: &mut Arguments<'a>) -> Option<NfsCall<'a>>
    ensures { IsReadAs (model.named_with_settings_at model.create arguments.old) result arguments.new }
{
    Some(NfsCall::Create {
        dir: arguments.file()?,
        name: arguments.name()?,
        settings: arguments.settings()?,
    })
}

#[tactic(auto, unfolding(bfs_model::specs::Bytes::Arguments::link_at))]
pub(crate) fn link<'a>(arguments: &mut Arguments<'a>) -> Option<NfsCall<'a>>
    ensures { IsReadAs (model.link_at arguments.old) result arguments.new }
{
    Some(NfsCall::Link {
        file: arguments.file()?,
        dir: arguments.file()?,
        name: arguments.name()?,
    })
}

#[tactic(auto, unfolding(bfs_model::specs::Bytes::Arguments::symbolic_link_at))]
pub(crate) fn make_symbolic_link<'a>(arguments: &mut Arguments<'a>) -> Option<NfsCall<'a>>
    ensures { IsReadAs (model.symbolic_link_at arguments.old) result arguments.new }
{
    Some(NfsCall::SymbolicLink {
        dir: arguments.file()?,
        name: arguments.name()?,
        path: arguments.path()?,
        settings: arguments.settings()?,
    })
}

#[tactic(auto, unfolding(bfs_model::specs::Bytes::Arguments::named_with_settings_at))]
pub(crate) fn make_directory<'a>(arguments: &mut Arguments<'a>) -> Option<NfsCall<'a>>
    ensures { IsReadAs (model.named_with_settings_at model.make_directory arguments.old) result arguments.new }
{
    Some(NfsCall::MakeDirectory {
        dir: arguments.file()?,
        name: arguments.name()?,
        settings: arguments.settings()?,
    })
}
