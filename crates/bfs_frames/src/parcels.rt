ghost use Rattle.std.specs.Prelude.{◌≡◌, OnOk};
ghost use Rattle.std.specs.Io.KnownBytes.{Appends};
ghost use Rattle.bfs_frames.specs.Parcels.{answer_text, number_of, parcel_text, place_of};
ghost use Rattle.bfs_model.specs.Bytes.Items.{hyper, word};
ghost use Rattle.bfs_frames.specs.Frames.{frame_text, raw_frame};

use crate::frames::Frame;
use std::io;
use std::io::{Error, ErrorKind, Write};

/// To whom a parcel goes.
#[derive(Clone, Copy, Debug, PartialEq, Eq)]
pub enum To {
    /// All other replicas.
    Replicas,
    /// The replica of that number.
    Replica(u32),
    /// The client of that number.
    Client(u32),
    /// The operator.
    Operator,
    /// The caller who was given that ticket.
    Caller(u64),
}

impl To {
    // which of the five it is
    fn place(self) -> u8
        ensures { result ≡ place_of self }
    {
        match self {
            To::Replicas => 0,
            To::Replica(_) => 1,
            To::Client(_) => 2,
            To::Operator => 3,
            To::Caller(_) => 4,
        }
    }

    // the number or the ticket, or 0 where there is none
    fn number(self) -> u64
        ensures { result ≡ number_of self }
    {
        match self {
            To::Replicas | To::Operator => 0,
            To::Replica(number) | To::Client(number) => u64::from(number),
            To::Caller(ticket) => ticket,
        }
    }
}

/// A frame that is to be carried to someone.
#[derive(Debug, Drop)]
pub struct Parcel {
    pub to: To,
    pub frame: Frame,
}

/// Writes a whole answer, and flushes it. `InvalidInput` where there are 2^32 parcels or more, or a payload has 2^32 bytes or more. After an error a part
/// of the answer may be written.
pub fn write_answer<W: Write>(writer: &mut W, parcels: &[Parcel]) -> io::Result<()>
    ensures { OnOk result (Appends (W.contents writer.old) (W.contents writer.new) (answer_text parcels.now)) }
{
    write_length(writer, parcels.len())?;
    for parcel in parcels {
        write_parcel(writer, parcel)?;
    }
    writer.flush()
}

fn write_parcel<W: Write>(writer: &mut W, parcel: &Parcel) -> io::Result<()>
    ensures { OnOk result (Appends (W.contents writer.old) (W.contents writer.new) (parcel_text parcel.now)) }
{
    writer.write_all(&[parcel.to.place()])?;
    write_number(writer, parcel.to.number())?;
    write_frame(writer, &parcel.frame)
}

fn write_frame<W: Write>(writer: &mut W, frame: &Frame) -> io::Result<()>
    ensures { OnOk result (Appends (W.contents writer.old) (W.contents writer.new) (frame_text (raw_frame frame.now))) }
{
    writer.write_all(&[frame.kind.number()])?;
    write_length(writer, frame.payload.len())?;
    writer.write_all(frame.payload.as_slice())
}

#[tactic(auto, unfolding(bfs_model::specs::Bytes::Items::hyper))]
fn write_number<W: Write>(writer: &mut W, number: u64) -> io::Result<()>
    ensures { OnOk result (Appends (W.contents writer.old) (W.contents writer.new) (hyper number)) }
{
    writer.write_all(&number.to_be_bytes())
}

#[tactic(auto, unfolding(bfs_model::specs::Bytes::Items::word))]
fn write_length<W: Write>(writer: &mut W, length: usize) -> io::Result<()>
    ensures { OnOk result (Appends (W.contents writer.old) (W.contents writer.new) (word length)) }
{
    let Ok(length) = u32::try_from(length) else {
        return Err(Error::from(ErrorKind::InvalidInput));
    };
    writer.write_all(&length.to_be_bytes())
}
