ghost use Rattle.std.specs.Prelude.{◌≡◌, [], ◌∷◌, ◌++◌, OnOk};
ghost use Rattle.bfs_trace.specs.Errors.{trace_error_code};
ghost use Rattle.bfs_trace.specs.Inside.Reading.{Parses};
ghost use Rattle.bfs_trace.specs.Trace.{with_event, with_request};

use crate::events::{RequestText, TraceEvent};
use crate::fault::Fault;
use std::alloc::Global;
use std::marker::Model;
use thiserror::Error;

/// The events of a trace, in their order.
#[derive(Debug, Drop)]
pub struct Trace {
    events: Vec<TraceEvent>,
}

impl Model for Trace {
    ghost use Rattle.std.specs.Prelude.{List};
    ghost use Rattle.bfs_trace.specs.declared.events.TraceEvent.{TraceEvent};

    ghost Value = { List TraceEvent };

    ghost view = { λ trace. trace.events.items };
}

impl Trace {
    /// A trace in which nothing has happened yet.
    pub(crate) fn new(alloc: Global) -> Trace
        ensures { result ≡ [] }
    {
        Trace {
            events: Vec::new(alloc),
        }
    }

    /// Puts an event behind the others.
    pub(crate) fn push_event(&mut self, event: TraceEvent) -> Result<(), Fault>
        ensures { Parses (λ _. self.new) result (with_event self.old event) }
    {
        self.events.push(event)?;
        Ok(())
    }

    /// Puts a request behind the others of the last event, where that is a block with room for it.
    pub(crate) fn push_request(
        &mut self,
        alloc: Global,
        text: &RequestText<'_>,
    ) -> Result<(), Fault>
        ensures { Parses (λ _. self.new) result (with_request self.old text.now) }
    {
        let Some(event) = self.events.last_mut() else {
            return Err(Fault::Bad);
        };
        event.push_request(alloc, text)
    }

    /// The events in their order.
    pub fn events(&self) -> &[TraceEvent]
        ensures { result.now ≡ self.now }
    {
        self.events.as_slice()
    }
}

/// Why a text is not read as a trace.
#[derive(Clone, Copy, Debug, PartialEq, Eq, Error)]
pub enum TraceError {
    /// The first line that breaks the grammar, counted from 1.
    #[error("line {0} breaks the grammar of a trace")]
    BadLine(usize),
    /// Memory ran out. No line breaks the grammar.
    #[error("out of memory")]
    Memory,
}

impl TraceError {
    /// The number of this refusal, apart from those of every other.
    pub fn code(self) -> u32
        ensures { result ≡ trace_error_code self }
    {
        match self {
            TraceError::BadLine(_) => 37,
            TraceError::Memory => 40,
        }
    }
}
