// REMOVE and RMDIR (RFC 1094 sections 2.2.11 and 2.2.16).
ghost use Rattle.bfs_model.specs.Bytes.Arguments as model;
ghost use Rattle.bfs_trace.specs.Inside.Writing.{AppendsCall};
ghost use Rattle.bfs_trace.specs.Verbs.{named_words};

use crate::buffer::Buffer;
use crate::items::put_named;
use crate::words::Words;

/// `remove H NAME`
#[tactic(auto, unfolding(crate::specs::Verbs::named_words, crate::specs::Messages::arguments), using(std::proofs::lemmas::List::append_assoc, crate::proofs::Room::length_of_both))]
pub(crate) fn remove(words: &mut Words<'_>, out: &mut Buffer) -> Option<()>
    ensures { AppendsCall result out.old out.new (named_words model.remove words.old) }
{
    let dir = words.file()?;
    let name = words.next_word()?;
    words.end()?;
    put_named(out, dir, name)
}

/// `rmdir H NAME`
#[tactic(auto, unfolding(crate::specs::Verbs::named_words, crate::specs::Messages::arguments), using(std::proofs::lemmas::List::append_assoc, crate::proofs::Room::length_of_both))]
pub(crate) fn remove_directory(words: &mut Words<'_>, out: &mut Buffer) -> Option<()>
    ensures { AppendsCall result out.old out.new (named_words model.remove_directory words.old) }
{
    let dir = words.file()?;
    let name = words.next_word()?;
    words.end()?;
    put_named(out, dir, name)
}
