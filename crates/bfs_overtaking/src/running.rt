ghost use Rattle.std.specs.Prelude.{◌≡◌, ◌-◌, IfOk, IsTrue, None, Some, if◌then◌else◌};
ghost use Rattle.std.specs.Option.{option_map};
ghost use Rattle.bfs_tree.specs.Tree.{at_home, reach_of};
ghost use Rattle.bfs_overtaking.specs.Machine.{after_finish, after_take, finish_refusal, has_call, is_complete, reply_to, take_refusal};

use crate::calls::{Call, State, all_are_finished};
use crate::claims::Claims;
use crate::errors::CoreError;
use crate::loans::{carry_out, carry_out_alone, lend};
use bfs_handover::Job;
use bfs_levels::Part;
use bfs_tree::Tree;
use bfs_types::Memory;
use std::alloc::Global;
use std::marker::Model;

// The calls of a group, of which the first is the first request of the part, over a tree that lends inodes out.
#[derive(Drop)]
pub(crate) struct Running<'a> {
    pub(crate) alloc: Global,
    pub(crate) part: Part<'a>,
    pub(crate) tree: Tree,
    pub(crate) calls: Vec<Call>,
    pub(crate) claims: Claims,
}

impl<'a> Model for Running<'a> {
    ghost use Rattle.std.specs.Coded.{codes};
    ghost use Rattle.bfs_serial.specs.Codes.{inodes_code};
    ghost use Rattle.bfs_overtaking.specs.Machine as core;

    ghost Value = { core.Machine };

    ghost coded = { Prim.hlevel (codes, inodes_code) };

    ghost use Rattle.bfs_overtaking.specs.Seen.{machine_seen};
    ghost use Rattle.bfs_overtaking.specs.Inside.Running.{IsKept};

    ghost view = { λ running. machine_seen running.part running.tree running.calls.items };

    ghost invariant = { λ running. IsKept running.tree running.calls.items running.claims (machine_seen running.part running.tree running.calls.items) };
}

impl<'a> Running<'a> {
    // the inodes at home
    pub(crate) fn tree(&self) -> &Tree
        ensures value { at_home result.now ≡ self.now.home }
        ensures whole { IsTrue (is_complete self.now) → IsTrue ((reach_of result.now).whole) }
    {
        &self.tree
    }

    // the place of the call of a number
    fn place(&self, number: u32) -> Option<usize>
        ensures { result ≡ (if has_call self.now number then Some (number - self.now.first) else None) }
    {
        let number = number as usize;
        let first = self.part.first;
        if first <= number && number - first < self.calls.len() {
            Some(number - first)
        } else {
            None
        }
    }

    pub(crate) fn take_refusal(&self, number: u32) -> Option<CoreError>
        ensures { result ≡ take_refusal self.now number }
    {
        let Some(place) = self.place(number) else {
            return Some(CoreError::NoSuchCall);
        };
        let call = &self.calls[place];
        if !call.state.is_waiting() {
            return Some(CoreError::Taken);
        }
        if self.claims.hold_back(place, &call.footprint) {
            return Some(CoreError::NotReady);
        }
        None
    }

    pub(crate) fn finish_refusal(&self, number: u32) -> Option<CoreError>
        ensures { result ≡ finish_refusal self.now number }
    {
        let Some(place) = self.place(number) else {
            return Some(CoreError::NoSuchCall);
        };
        if !self.calls[place].state.is_taken() {
            return Some(CoreError::NotTaken);
        }
        None
    }

    pub(crate) fn reply(&self, number: u32) -> Option<&[u8]>
        ensures { option_map (λ reply. reply.now) result ≡ reply_to self.now number }
    {
        let place = self.place(number)?;
        self.calls[place].state.reply()
    }

    pub(crate) fn is_finished(&self) -> bool
        ensures { result ≡ is_complete self.now }
    {
        all_are_finished(self.calls.as_slice())
    }

    // with the call of that number taken
    pub(crate) fn taken(self, number: u32) -> Result<Running<'a>, Memory>
        requires { take_refusal self number ≡ None }
        ensures { IfOk result (λ next. next ≡ after_take self.entry number) }
    {
        let Running {
            alloc,
            part,
            mut tree,
            mut calls,
            claims,
        } = self;
        let place = number as usize - part.first;
        let call = &mut calls[place];
        let loans = lend(alloc, &mut tree, &call.footprint)?;
        call.state = State::Taken(loans);
        Ok(Running {
            alloc,
            part,
            tree,
            calls,
            claims,
        })
    }

    // with the call of that number finished
    pub(crate) fn finished(self, number: u32) -> Result<Running<'a>, Memory>
        requires { finish_refusal self number ≡ None }
        ensures { IfOk result (λ next. next ≡ after_finish self.entry number) }
    {
        let Running {
            alloc,
            part,
            mut tree,
            mut calls,
            mut claims,
        } = self;
        let place = number as usize - part.first;
        let call = &mut calls[place];
        let State::Taken(inodes) = std::mem::replace(&mut call.state, State::Waiting) else {
            unreachable!()
        };
        let job = Job {
            number,
            request: part.request(number as usize),
            ordinal: part.ordinal_of(number as usize),
            time: part.time,
            inodes,
        };
        let reply = if call.footprint.is_whole() {
            carry_out_alone(alloc, &mut tree, job)?
        } else {
            carry_out(alloc, &mut tree, job)?
        };
        claims.remove(place, &call.footprint);
        call.state = State::Finished(reply);
        Ok(Running {
            alloc,
            part,
            tree,
            calls,
            claims,
        })
    }
}
