ghost use Rattle.std.specs.Prelude.{◌≡◌, ◌∷◌, ◌<◌, ◌↔◌, [], length, IsTrue, IfSome, IfNone, option_map};
ghost use Rattle.bfs_trace.specs.Words.{only_word, parts, parts_left, unless_more, word_in};

use memchr::memchr;
use std::marker::Model;

/// The first part of a text between the bytes `at`, and what is behind the byte that ends the part, if one does.
#[tactic(auto, using(crate::proofs::Cuts::cut_at, crate::proofs::Cuts::cut_none))]
pub(crate) fn cut(text: &[u8], at: u8) -> (&[u8], Option<&[u8]>)
    ensures shorter { IfSome result.1 (λ rest. length rest.now < length text.now) }
    ensures parts { parts at text.now ≡ result.0.now ∷ parts_left at (option_map (λ rest. rest.now) result.1) }
{
    match memchr(at, text) {
        Some(i) => (&text[..i], Some(&text[i + 1..])),
        None => (text, None),
    }
}

/// The words of a text that are not read yet, with one byte `at` between two words.
#[derive(Drop)]
pub(crate) struct Words<'a> {
    at: u8,
    rest: Option<&'a [u8]>,
}

impl<'a> Model for Words<'a> {
    ghost use Rattle.std.specs.Prelude.{ℕ, List, option_map};
    ghost use Rattle.bfs_trace.specs.Words.{parts_left};

    ghost Value = { List (List ℕ) };

    ghost view = { λ words. parts_left words.at (option_map (λ rest. rest.now) words.rest) };
}

impl<'a> Words<'a> {
    /// All words of a text.
    pub(crate) fn new(text: &'a [u8], at: u8) -> Words<'a>
        ensures { result ≡ parts at text.now }
    {
        Words {
            at,
            rest: Some(text),
        }
    }

    /// Reads a word, which is empty where two of the bytes `at` stand side by side.
    pub(crate) fn next_word(&mut self) -> Option<&'a [u8]>
        ensures word { option_map (λ word. (word.now, self.new)) result ≡ word_in self.old }
        ensures at_end { IfNone result (self.new ≡ []) }
    {
        let (word, rest) = cut(self.rest?, self.at);
        self.rest = rest;
        Some(word)
    }

    /// Whether all words are read.
    #[tactic(auto, using(crate::proofs::Cuts::parts_of_some_text))]
    pub(crate) fn is_at_end(&self) -> bool
        ensures { IsTrue result ↔ (self.now ≡ []) }
    {
        self.rest.is_none()
    }

    /// Reads the word that is left, or gives `None` where none is or more than one.
    #[tactic(auto, using(crate::proofs::Cuts::not_only_word))]
    pub(crate) fn last_word(&mut self) -> Option<&'a [u8]>
        ensures { option_map (λ word. word.now) result ≡ only_word self.old }
    {
        let word = self.next_word()?;
        if !self.is_at_end() {
            return None;
        }
        Some(word)
    }

    /// `None` where a word is left.
    pub(crate) fn end(&self) -> Option<()>
        ensures { result ≡ unless_more self.now tt }
    {
        if self.is_at_end() { Some(()) } else { None }
    }
}
