// What the lines of a trace say, one after another.
ghost use Rattle.std.specs.Prelude.{◌≡◌};
ghost use Rattle.bfs_trace.specs.Inside.Reading.{Parses};
ghost use Rattle.bfs_trace.specs.declared.lines.Line.TheVariants as line;
ghost use Rattle.bfs_trace.specs.Trace.{first_reading, is_passed_over, with_line, with_text};

use crate::buffer::Buffer;
use crate::callers::Callers;
use crate::events::RequestText;
use crate::fault::Fault;
use crate::lines::{Line, parse_line};
use crate::population::Population;
use crate::trace::Trace;
use std::alloc::Global;
use std::marker::Model;

/// Whether a line is empty or a comment.
#[tactic(auto, unfolding(crate::specs::Trace::is_passed_over))]
pub(crate) fn is_passed_over(text: &[u8]) -> bool
    ensures { result ≡ is_passed_over text.now }
{
    matches!(text, [] | [b'#', ..])
}

/// What the lines up to a place say.
#[derive(Drop)]
pub(crate) struct Reading {
    trace: Trace,
    // whether the last event takes no more requests
    has_ended: bool,
    callers: Callers,
}

impl Model for Reading {
    ghost use Rattle.bfs_trace.specs.Trace as model;

    ghost Value = { model.Reading };

    ghost view = { λ reading. record { events = reading.trace; has_ended = reading.has_ended; callers = reading.callers } };
}

impl Reading {
    /// What no lines say.
    pub(crate) fn new(alloc: Global, population: Population) -> Reading
        ensures { result ≡ first_reading population }
    {
        Reading {
            trace: Trace::new(alloc),
            has_ended: false,
            callers: Callers::new(population.clients()),
        }
    }

    fn push_request(&mut self, alloc: Global, text: &RequestText<'_>) -> Result<(), Fault>
        ensures { Parses (λ _. self.new) result (with_line self.old (line.Request text.now)) }
    {
        if self.has_ended {
            return Err(Fault::Bad);
        }
        self.trace.push_request(alloc, text)
    }

    fn push(&mut self, alloc: Global, line: Line<'_>) -> Result<(), Fault>
        ensures { Parses (λ _. self.new) result (with_line self.old line.entry) }
    {
        match line {
            Line::Event(event) => {
                self.has_ended = false;
                self.trace.push_event(event)
            }
            Line::Caller(caller) => {
                self.has_ended = true;
                self.callers.set(&caller);
                Ok(())
            }
            Line::Request(text) => self.push_request(alloc, &text),
        }
    }

    /// Reads a line behind those before it.
    pub(crate) fn read(
        &mut self,
        alloc: Global,
        population: Population,
        text: &[u8],
        call: &mut Buffer,
    ) -> Result<(), Fault>
        ensures { Parses (λ _. self.new) result (with_text population self.old text.now) }
    {
        if is_passed_over(text) {
            return Ok(());
        }
        let line = parse_line(alloc, population, &self.callers, text, call).ok_or(Fault::Bad)?;
        self.push(alloc, line)
    }

    /// The trace of the lines that were read.
    pub(crate) fn into_trace(self) -> Trace
        ensures { result ≡ self.events }
    {
        self.trace
    }
}
