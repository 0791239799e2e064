ghost use Rattle.std.specs.Prelude.{◌≡◌, ◌≤◌, [], length, IfSome, option_map};
ghost use Rattle.bfs_model.specs.Bytes.Items.{counted};
ghost use Rattle.bfs_model.specs.Server.Limits.{most_request_bytes};
ghost use Rattle.bfs_trace.specs.Inside.Writing.{Appends};
ghost use Rattle.bfs_trace.specs.Texts.{are_printable, data_spelled, escape_spelled, text_in_parts, text_spelled};
ghost use Rattle.bfs_trace.specs.Words.{parts};

use crate::buffer::Buffer;
use crate::words::Words;
use hex::FromHex;

// printable ASCII, but for the space
fn are_printable(bytes: &[u8]) -> bool
    ensures { result ≡ are_printable bytes.now }
{
    bytes.iter().all(|byte| (33..=126).contains(byte))
}

// appends what stands behind a `%`: a byte by two hexadecimal digits, and printable bytes
#[tactic(auto, unfolding(crate::specs::Texts::escape_spelled), using(std::proofs::lemmas::List::append_assoc, crate::proofs::Room::length_of_both))]
fn push_escape(part: &[u8], text: &mut Buffer) -> Option<()>
    ensures { Appends result text.old text.new (escape_spelled part.now) }
{
    let [high, low, plain @ ..] = part else {
        return None;
    };
    let byte = <[u8; 1]>::from_hex([*high, *low].as_slice()).ok()?;
    if !are_printable(plain) {
        return None;
    }
    text.push(&byte)?;
    text.push(plain)
}

// appends the text of a word that isn't `%` alone
#[tactic(auto, unfolding(crate::specs::Texts::text_after))]
fn push_escapes(word: &[u8], text: &mut Buffer) -> Option<()>
    requires { text.old ≡ [] }
    ensures { Appends result [] text.new (text_in_parts (parts 37 word.now)) }
{
    let mut parts = Words::new(word, b'%');
    let plain = parts.next_word()?;
    if !are_printable(plain) {
        return None;
    }
    text.push(plain)?;
    while let Some(part) = parts.next_word() {
        push_escape(part, text)?;
    }
    Some(())
}

/// Reads a `NAME` or a `PATH`: printable bytes, and `%` with two hexadecimal digits for any byte. The word `%` is no bytes.
#[tactic(auto, unfolding(crate::specs::Texts::text_spelled))]
fn parse_text<'t>(word: &[u8], text: &'t mut Buffer) -> Option<&'t [u8]>
    requires { text.old ≡ [] }
    ensures value { option_map (λ bytes. bytes.now) result ≡ text_spelled word.now }
    ensures within { IfSome result (λ bytes. length bytes.now ≤ most_request_bytes) }
{
    if word.is_empty() {
        return None;
    }
    if word == b"%".as_slice() {
        return Some(&[]);
    }
    push_escapes(word, text)?;
    Some(text.as_slice())
}

/// Appends the bytes of a `NAME` or a `PATH` behind their length, which is known only once they are decoded.
pub(crate) fn put_text(word: &[u8], out: &mut Buffer) -> Option<()>
    ensures { Appends result out.old out.new (option_map counted (text_spelled word.now)) }
{
    let mut text = Buffer::new();
    out.push_opaque(parse_text(word, &mut text)?)
}

/// Reads the `BYTES` of a file: `x`, and two hexadecimal digits for each byte.
#[tactic(auto, unfolding(crate::specs::Texts::data_spelled))]
fn parse_data<'b>(word: &[u8], bytes: &'b mut Buffer) -> Option<&'b [u8]>
    ensures value { option_map (λ read. read.now) result ≡ data_spelled word.now }
    ensures within { IfSome result (λ read. length read.now ≤ most_request_bytes) }
{
    let [b'x', digits @ ..] = word else {
        return None;
    };
    bytes.decode(digits)
}

/// Appends the `BYTES` of a file behind their length.
pub(crate) fn put_data(word: &[u8], out: &mut Buffer) -> Option<()>
    ensures { Appends result out.old out.new (option_map counted (data_spelled word.now)) }
{
    let mut data = Buffer::new();
    out.push_opaque(parse_data(word, &mut data)?)
}
