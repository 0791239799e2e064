//! What a replica goes on to lie, and a client with it, once no message is lost.
use crate::playing::{Play, form};
use bfs_messages::{Message, OrderMessage, Signed, ViewChange};
use bfs_testing::generated::Generator;
use bfs_testing_liars::draws::{any_of, below, happens, some};
use bfs_testing_liars::liars::{Liar, as_message, batch_of};
use bfs_testing_liars::lies::number_near;
use bfs_testing_liars::past::changes_with;
use bfs_testing_liars::sets::Set;
use bfs_testing_liars::world::World;
use bfs_types::{Memory, TryClone};

// a VIEW-CHANGE with a certificate of what was proposed last, which is forged now and then
fn certified(
    world: &World,
    draws: &mut Generator,
    liar: &Liar,
    view: u64,
) -> Result<Signed<ViewChange>, Memory> {
    let Some(on) = world.proposed.last() else {
        return liar.bare_change(view);
    };
    let is_forged = happens(draws, 50);
    match liar.certificate(world, on, is_forged)? {
        Some(certificate) => liar.change_with(view, certificate),
        None => liar.bare_change(view),
    }
}

fn change(
    world: &World,
    draws: &mut Generator,
    liar: &Liar,
    view: u64,
) -> Result<Signed<ViewChange>, Memory> {
    match below(draws, 4) {
        0..=1 => liar.bare_change(view),
        2 => certified(world, draws, liar, view),
        _ => liar.change_behind(world, view, 16),
    }
}

// a NEW-VIEW from VIEW-CHANGEs that were sent, which proposes what is chosen, or something else
fn new_view(
    world: &mut World,
    draws: &mut Generator,
    liar: &Liar,
    view: u64,
) -> Result<Option<Message>, Memory> {
    let own = change(world, draws, liar, view)?;
    let changes = changes_with(world, own, some(draws))?;
    if happens(draws, 60) {
        return match liar.right_view(view, &changes)? {
            Some(new) => Ok(Some(new.message)),
            None => Ok(None),
        };
    }
    let behind = world.last(any_of(draws, 4));
    let second = world.tick();
    let new = liar.wrong_view(view, changes, behind, below(draws, 4) as u64, second)?;
    Ok(Some(new.message))
}

// a PRE-PREPARE for a number that is next for some replica, or near it
fn proposal(
    world: &mut World,
    draws: &mut Generator,
    liar: &Liar,
    view: u64,
) -> Result<Message, Memory> {
    let one = any_of(draws, 4);
    let number = number_near(world, draws, one);
    let batch = batch_of(world.alloc, world.tick())?;
    Ok(liar.proposal(view, number, &batch)?.message)
}

// a vote for what was proposed last, a CHECKPOINT that was not reached, or a VIEW-CHANGE
fn said_by_any(
    world: &World,
    draws: &mut Generator,
    liar: &Liar,
    view: u64,
) -> Result<Message, Memory> {
    let signed = match (below(draws, 6), world.proposed.last()) {
        (0..=1, Some(on)) => liar.prepare(liar.number, on)?,
        (2..=3, Some(on)) => liar.commit(liar.number, on)?,
        (4, _) => liar.checkpoint(16, [7; 32])?,
        _ => as_message(change(world, draws, liar, view)?),
    };
    Ok(signed.message)
}

// what a primary alone says, or any replica
fn said(
    world: &mut World,
    draws: &mut Generator,
    liar: &Liar,
    view: u64,
) -> Result<Option<Message>, Memory> {
    let leads = world.primary(view) == liar.number as usize;
    match below(draws, 4) {
        0 if leads => new_view(world, draws, liar, view),
        1..=2 if leads => Ok(Some(proposal(world, draws, liar, view)?)),
        _ => Ok(Some(said_by_any(world, draws, liar, view)?)),
    }
}

impl Play {
    // each is told it in a form of its own
    fn tell_each(&mut self, draws: &mut Generator, to: Set, text: &Message) -> Result<(), Memory> {
        for receiver in 0..4 {
            if to.has(receiver) {
                let copy = text.try_clone(self.world.alloc)?;
                let signed = self.replica.say(copy, form(draws))?;
                self.world.put(&signed, Set::of(receiver), true)?;
            }
        }
        Ok(())
    }

    fn lie_once(&mut self, draws: &mut Generator, view: u64) -> Result<(), Memory> {
        let Some(liar) = self.lying.any(draws) else {
            return Ok(());
        };
        let to = some(draws);
        let first = said(&mut self.world, draws, liar, view)?;
        let second = said(&mut self.world, draws, liar, view)?;
        if let Some(text) = first {
            self.tell_each(draws, to, &text)?;
        }
        if let Some(text) = second {
            self.tell_each(draws, to.others(), &text)?;
        }
        Ok(())
    }

    /// The replica lies in a view, now and then to some one thing and to the others another one, and so does the client.
    pub fn lie_in(&mut self, draws: &mut Generator, view: u64) -> Result<(), Memory> {
        for _ in 0u32..2 {
            self.lie_once(draws, view)?;
        }
        if happens(draws, 50) {
            self.ask_wrongly(draws)?;
        }
        Ok(())
    }
}
