// RENAME (RFC 1094 section 2.2.12).
ghost use Rattle.bfs_model.specs.Bytes.Arguments as model;
ghost use Rattle.bfs_trace.specs.Inside.Writing.{AppendsCall};
ghost use Rattle.bfs_trace.specs.Verbs.{rename_words};

use crate::buffer::Buffer;
use crate::items::put_named;
use crate::words::Words;

/// `rename H NAME H NAME`
#[tactic(auto, unfolding(crate::specs::Verbs::rename_words, crate::specs::Messages::arguments), using(std::proofs::lemmas::List::append_assoc, crate::proofs::Room::length_of_both))]
pub(crate) fn rename(words: &mut Words<'_>, out: &mut Buffer) -> Option<()>
    ensures { AppendsCall result out.old out.new (rename_words words.old) }
{
    let from = words.file()?;
    let from_name = words.next_word()?;
    let to = words.file()?;
    let to_name = words.next_word()?;
    words.end()?;
    put_named(out, from, from_name)?;
    put_named(out, to, to_name)
}
