// LOOKUP and READDIR (RFC 1094 sections 2.2.5 and 2.2.17).
ghost use Rattle.bfs_model.specs.Bytes.Arguments as model;
ghost use Rattle.bfs_trace.specs.Inside.Writing.{AppendsCall};
ghost use Rattle.bfs_trace.specs.Verbs.{named_words, read_directory_words};

use crate::buffer::Buffer;
use crate::items::{put_handle, put_named};
use crate::words::Words;

/// `lookup H NAME`
#[tactic(auto, unfolding(crate::specs::Verbs::named_words, crate::specs::Messages::arguments), using(std::proofs::lemmas::List::append_assoc, crate::proofs::Room::length_of_both))]
pub(crate) fn look_up(words: &mut Words<'_>, out: &mut Buffer) -> Option<()>
    ensures { AppendsCall result out.old out.new (named_words model.look_up words.old) }
{
    let dir = words.file()?;
    let name = words.next_word()?;
    words.end()?;
    put_named(out, dir, name)
}

/// `readdir H COOKIE COUNT`
#[tactic(auto, unfolding(crate::specs::Verbs::read_directory_words, crate::specs::Messages::arguments), using(std::proofs::lemmas::List::append_assoc, crate::proofs::Room::length_of_both))]
pub(crate) fn read_directory(words: &mut Words<'_>, out: &mut Buffer) -> Option<()>
    ensures { AppendsCall result out.old out.new (read_directory_words words.old) }
{
    let dir = words.file()?;
    let cookie = words.number()?;
    let count = words.number()?;
    words.end()?;
    put_handle(out, dir)?;
    out.push_words(&[cookie, count])
}
