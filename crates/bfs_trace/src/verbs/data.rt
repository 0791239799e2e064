// READLINK, READ and WRITE (RFC 1094 sections 2.2.6, 2.2.7 and 2.2.9).
ghost use Rattle.bfs_model.specs.Bytes.Arguments as model;
ghost use Rattle.bfs_trace.specs.Inside.Writing.{AppendsCall};
ghost use Rattle.bfs_trace.specs.Verbs.{file_words, read_words, write_words};

use crate::buffer::Buffer;
use crate::items::put_handle;
use crate::texts::put_data;
use crate::words::Words;

/// `readlink H`
#[tactic(auto, unfolding(crate::specs::Verbs::file_words, crate::specs::Messages::arguments), using(std::proofs::lemmas::List::append_assoc, crate::proofs::Room::length_of_both))]
pub(crate) fn read_link(words: &mut Words<'_>, out: &mut Buffer) -> Option<()>
    ensures { AppendsCall result out.old out.new (file_words model.read_link words.old) }
{
    let file = words.file()?;
    words.end()?;
    put_handle(out, file)
}

/// `read H OFFSET COUNT`, with a total count of 0
#[tactic(auto, unfolding(crate::specs::Verbs::read_words, crate::specs::Messages::arguments), using(std::proofs::lemmas::List::append_assoc, crate::proofs::Room::length_of_both))]
pub(crate) fn read(words: &mut Words<'_>, out: &mut Buffer) -> Option<()>
    ensures { AppendsCall result out.old out.new (read_words words.old) }
{
    let file = words.file()?;
    let offset = words.number()?;
    let count = words.number()?;
    words.end()?;
    put_handle(out, file)?;
    out.push_words(&[offset, count, 0])
}

/// `write H OFFSET BYTES`, with a begin offset and a total count of 0
#[tactic(auto, unfolding(crate::specs::Verbs::write_words, crate::specs::Messages::arguments), using(std::proofs::lemmas::List::append_assoc, crate::proofs::Room::length_of_both))]
pub(crate) fn write(words: &mut Words<'_>, out: &mut Buffer) -> Option<()>
    ensures { AppendsCall result out.old out.new (write_words words.old) }
{
    let file = words.file()?;
    let offset = words.number()?;
    let data = words.next_word()?;
    words.end()?;
    put_handle(out, file)?;
    out.push_words(&[0, offset, 0])?;
    put_data(data, out)
}
