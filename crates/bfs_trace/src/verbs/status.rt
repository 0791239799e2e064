// STATFS (RFC 1094 section 2.2.18).
ghost use Rattle.bfs_model.specs.Bytes.Arguments as model;
ghost use Rattle.bfs_trace.specs.Inside.Writing.{AppendsCall};
ghost use Rattle.bfs_trace.specs.Verbs.{file_words};

use crate::buffer::Buffer;
use crate::items::put_handle;
use crate::words::Words;

/// `statfs H`
#[tactic(auto, unfolding(crate::specs::Verbs::file_words, crate::specs::Messages::arguments), using(std::proofs::lemmas::List::append_assoc, crate::proofs::Room::length_of_both))]
pub(crate) fn file_system_status(words: &mut Words<'_>, out: &mut Buffer) -> Option<()>
    ensures { AppendsCall result out.old out.new (file_words model.file_system_status words.old) }
{
    let file = words.file()?;
    words.end()?;
    put_handle(out, file)
}
