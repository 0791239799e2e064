// CREATE, LINK, SYMLINK and MKDIR (RFC 1094 sections 2.2.10 and 2.2.13 to 2.2.15).
ghost use Rattle.bfs_model.specs.Bytes.Arguments as model;
ghost use Rattle.bfs_trace.specs.Inside.Writing.{AppendsCall};
ghost use Rattle.bfs_trace.specs.Verbs.{link_words, named_with_settings_words, symbolic_link_words};

use crate::buffer::Buffer;
use crate::items::{put_handle, put_named, put_settings};
use crate::texts::put_text;
use crate::words::Words;

/// `create H NAME SATTR`
#[tactic(auto, unfolding(crate::specs::Verbs::named_with_settings_words, crate::specs::Messages::arguments), using(std::proofs::lemmas::List::append_assoc, crate::proofs::Room::length_of_both))]
pub(crate) fn create(words: &mut Words<'_>, out: &mut Buffer) -> Option<()>
    ensures { AppendsCall result out.old out.new (named_with_settings_words model.create words.old) }
{
    let dir = words.file()?;
    let name = words.next_word()?;
    let settings = words.settings()?;
    words.end()?;
    put_named(out, dir, name)?;
    put_settings(out, settings)
}

/// `link H H NAME`: the file, and the directory with the new name
#[tactic(auto, unfolding(crate::specs::Verbs::link_words, crate::specs::Messages::arguments), using(std::proofs::lemmas::List::append_assoc, crate::proofs::Room::length_of_both))]
pub(crate) fn link(words: &mut Words<'_>, out: &mut Buffer) -> Option<()>
    ensures { AppendsCall result out.old out.new (link_words words.old) }
{
    let file = words.file()?;
    let dir = words.file()?;
    let name = words.next_word()?;
    words.end()?;
    put_handle(out, file)?;
    put_named(out, dir, name)
}

/// `symlink H NAME PATH SATTR`
#[tactic(auto, unfolding(crate::specs::Verbs::symbolic_link_words, crate::specs::Messages::arguments), using(std::proofs::lemmas::List::append_assoc, crate::proofs::Room::length_of_both))]
pub(crate) fn make_symbolic_link(words: &mut Words<'_>, out: &mut Buffer) -> Option<()>
    ensures { AppendsCall result out.old out.new (symbolic_link_words words.old) }
{
    let dir = words.file()?;
    let name = words.next_word()?;
    let path = words.next_word()?;
    let settings = words.settings()?;
    words.end()?;
    put_named(out, dir, name)?;
    put_text(path, out)?;
    put_settings(out, settings)
}

/// `mkdir H NAME SATTR`
#[tactic(auto, unfolding(crate::specs::Verbs::named_with_settings_words, crate::specs::Messages::arguments), using(std::proofs::lemmas::List::append_assoc, crate::proofs::Room::length_of_both))]
pub(crate) fn make_directory(words: &mut Words<'_>, out: &mut Buffer) -> Option<()>
    ensures { AppendsCall result out.old out.new (named_with_settings_words model.make_directory words.old) }
{
    let dir = words.file()?;
    let name = words.next_word()?;
    let settings = words.settings()?;
    words.end()?;
    put_named(out, dir, name)?;
    put_settings(out, settings)
}
