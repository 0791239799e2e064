// The arguments of READLINK, READ and WRITE (RFC 1094 sections 2.2.6, 2.2.7 and 2.2.9).
ghost use Rattle.bfs_model.specs.Bytes.Arguments as model;
ghost use Rattle.bfs_wire.specs.Calls.{IsReadAs};

use crate::arguments::Arguments;
use crate::call::NfsCall;

#[tactic(auto, unfolding(bfs_model::specs::Bytes::Arguments::file_at))]
pub(crate) fn read_link<'a>(arguments: &mut Arguments<'a>) -> Option<NfsCall<'a>>
    ensures { IsReadAs (model.file_at model.read_link arguments.old) result arguments.new }
{
    Some(NfsCall::ReadLink {
        file: arguments.file()?,
    })
}

// READ, whose total count is not used
#[tactic(auto, unfolding(bfs_model::specs::Bytes::Arguments::read_at))]
pub(crate) fn read<'a>(arguments: &mut Arguments<'a>) -> Option<NfsCall<'a>>
    ensures { IsReadAs (model.read_at arguments.old) result arguments.new }
{
    let file = arguments.file()?;
    let offset = arguments.word()?;
    let count = arguments.word()?;
    let _total_count = arguments.word()?;
    Some(NfsCall::Read {
        file,
        offset,
        count,
    })
}

// WRITE, whose begin offset and total count are not used
#[tactic(auto, unfolding(bfs_model::specs::Bytes::Arguments::write_at))]
pub(crate) fn write<'a>(arguments: &mut Arguments<'a>) -> Option<NfsCall<'a>>
    ensures { IsReadAs (model.write_at arguments.old) result arguments.new }
{
    let file = arguments.file()?;
    let _begin_offset = arguments.word()?;
    let offset = arguments.word()?;
    let _total_count = arguments.word()?;
    let bytes = arguments.data()?;
    Some(NfsCall::Write {
        file,
        offset,
        bytes,
    })
}
