// Which line of a trace is the first that breaks the grammar. No memory is taken.
ghost use Rattle.std.specs.Prelude.{◌≡◌, option_map};
ghost use Rattle.bfs_trace.specs.Inside.Places.{first_fault, first_place, place_with_line, place_with_text};
ghost use Rattle.bfs_trace.specs.Words.{parts};

use crate::buffer::Buffer;
use crate::callers::Callers;
use crate::events::TraceEvent;
use crate::lines::{Line, parse_line};
use crate::population::Population;
use crate::reading::is_passed_over;
use crate::words::cut;
use bfs_types::MOST_REQUESTS;
use std::alloc::Global;
use std::marker::Model;

/// What decides which lines may follow.
#[derive(Drop)]
struct Place {
    // how many requests the last event has, where more may join it
    requests: Option<usize>,
    callers: Callers,
}

impl Model for Place {
    ghost use Rattle.std.specs.Prelude.{◌≤◌, IfSome};
    ghost use Rattle.bfs_model.specs.Server.Limits.{most_requests};
    ghost use Rattle.bfs_trace.specs.Inside.Places as model;

    ghost Value = { model.Place };

    ghost view = { λ place. record { requests = place.requests; callers = place.callers } };

    ghost invariant = { λ place. IfSome place.requests (λ count. count ≤ most_requests) };
}

impl Place {
    fn new(population: Population) -> Place
        ensures { result ≡ first_place population }
    {
        Place {
            requests: None,
            callers: Callers::new(population.clients()),
        }
    }

    // Goes behind a line, or gives `None` where it can't stand there.
    fn pass(&mut self, line: &Line<'_>) -> Option<()>
        ensures { option_map (λ _. self.new) result ≡ place_with_line self.old line.now }
    {
        match line {
            Line::Event(TraceEvent::Block(block)) => self.requests = Some(block.requests().len()),
            Line::Event(_) => self.requests = None,
            Line::Caller(caller) => {
                self.requests = None;
                self.callers.set(caller);
            }
            Line::Request(_) => {
                let count = self.requests?;
                if count == MOST_REQUESTS {
                    return None;
                }
                self.requests = Some(count + 1);
            }
        }
        Some(())
    }

    // Goes behind a line of text, or gives `None` where it breaks the grammar. A call is written in that buffer.
    fn pass_text(
        &mut self,
        alloc: Global,
        population: Population,
        text: &[u8],
        call: &mut Buffer,
    ) -> Option<()>
        ensures { option_map (λ _. self.new) result ≡ place_with_text population self.old text.now }
    {
        if is_passed_over(text) {
            return Some(());
        }
        let line = parse_line(alloc, population, &self.callers, text, call)?;
        self.pass(&line)
    }
}

/// The number of the first line that breaks the grammar, counted from 1, if one does.
#[tactic(auto, unfolding(crate::specs::Inside::Places::first_fault))]
pub(crate) fn find_fault(alloc: Global, text: &[u8], population: Population) -> Option<usize>
    ensures { result ≡ first_fault population (parts 10 text.now) 1 (first_place population) }
{
    let mut place = Place::new(population);
    let mut call = Buffer::new();
    let mut number = 0usize;
    let mut left = Some(text);
    while let Some(bytes) = left {
        let (line, more) = cut(bytes, b'\n');
        number += 1;
        left = more;
        let Some(()) = place.pass_text(alloc, population, line, &mut call) else {
            return Some(number);
        };
    }
    None
}
