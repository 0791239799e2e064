// GETATTR and SETATTR (RFC 1094 sections 2.2.2 and 2.2.3).
ghost use Rattle.bfs_model.specs.Bytes.Arguments as model;
ghost use Rattle.bfs_trace.specs.Inside.Writing.{AppendsCall};
ghost use Rattle.bfs_trace.specs.Verbs.{file_words, set_attributes_words};

use crate::buffer::Buffer;
use crate::items::{put_handle, put_settings};
use crate::words::Words;

/// `getattr H`
#[tactic(auto, unfolding(crate::specs::Verbs::file_words, crate::specs::Messages::arguments), using(std::proofs::lemmas::List::append_assoc, crate::proofs::Room::length_of_both))]
pub(crate) fn get_attributes(words: &mut Words<'_>, out: &mut Buffer) -> Option<()>
    ensures { AppendsCall result out.old out.new (file_words model.get_attributes words.old) }
{
    let file = words.file()?;
    words.end()?;
    put_handle(out, file)
}

/// `setattr H SATTR`
#[tactic(auto, unfolding(crate::specs::Verbs::set_attributes_words, crate::specs::Messages::arguments), using(std::proofs::lemmas::List::append_assoc, crate::proofs::Room::length_of_both))]
pub(crate) fn set_attributes(words: &mut Words<'_>, out: &mut Buffer) -> Option<()>
    ensures { AppendsCall result out.old out.new (set_attributes_words words.old) }
{
    let file = words.file()?;
    let settings = words.settings()?;
    words.end()?;
    put_handle(out, file)?;
    put_settings(out, settings)
}
