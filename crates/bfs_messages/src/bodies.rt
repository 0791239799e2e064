// What is signed of messages that others hold.
ghost use Rattle.std.specs.Prelude.{◌≡◌, ◌≤◌, OnOk};
ghost use Rattle.bfs_model.specs.Server.Limits.{most_number};
ghost use Rattle.bfs_auth.specs.declared.places.Place.TheVariants as place;
ghost use Rattle.bfs_messages.specs.Bodies.{text_of};
ghost use Rattle.bfs_xdr.specs.Sinks.{Takes};

use crate::changes::{NewView, ViewChange};
use crate::requests::Request;
use crate::tags::{
    CHECKPOINT_TAG, NEW_VIEW_TAG, PRE_PREPARE_TAG, PREPARE_TAG, REQUEST_TAG, VIEW_CHANGE_TAG,
};
use crate::votes::{Checkpoint, Vote};
use crate::writing::put_tagged;
use bfs_auth::{Place, Text};
use bfs_xdr::Sink;
use sha2::Sha256;

/// What is signed of a message: its tag, and what stands behind it. Of a PRE-PREPARE that is what it says of the number.
#[derive(Drop)]
pub(crate) enum Body<'a> {
    Request(&'a Request),
    PrePrepare(&'a Vote),
    Prepare(&'a Vote),
    Checkpoint(&'a Checkpoint),
    ViewChange(&'a ViewChange),
    NewView(&'a NewView),
}

fn put_text<S: Sink>(body: &Body<'_>, out: &mut S) -> Result<(), S::Error>
    ensures { OnOk result (Takes S.holds out.old out.new (text_of body.now)) }
{
    match body {
        Body::Request(request) => put_tagged(REQUEST_TAG, *request, out),
        Body::PrePrepare(vote) => put_tagged(PRE_PREPARE_TAG, *vote, out),
        Body::Prepare(vote) => put_tagged(PREPARE_TAG, *vote, out),
        Body::Checkpoint(checkpoint) => put_tagged(CHECKPOINT_TAG, *checkpoint, out),
        Body::ViewChange(change) => put_tagged(VIEW_CHANGE_TAG, *change, out),
        Body::NewView(new) => put_tagged(NEW_VIEW_TAG, *new, out),
    }
}

impl<'a> Text for Body<'a> {
    ghost text = { text_of };

    fn hash(&self, hasher: &mut Sha256) {
        match put_text(self, hasher) {
            Ok(()) => (),
            Err(never) => match never {},
        }
    }

    #[tactic(auto, using(crate::proofs::Places::request_place, crate::proofs::Places::pre_prepare_place, crate::proofs::Places::prepare_place, crate::proofs::Places::checkpoint_place, crate::proofs::Places::view_change_place, crate::proofs::Places::new_view_place))]
    fn place(&self) -> Option<Place> {
        match self {
            Body::Request(_) => None,
            Body::PrePrepare(vote) => Some(of_vote(vote)),
            Body::Prepare(vote) => Some(of_vote(vote)),
            Body::Checkpoint(checkpoint) => Some(of_checkpoint(checkpoint)),
            Body::ViewChange(change) => Some(of_view_change(change)),
            Body::NewView(new) => Some(of_new_view(new)),
        }
    }
}

/// The place that a PRE-PREPARE or a PREPARE is of.
pub(crate) fn of_vote(vote: &Vote) -> Place
    ensures value { result ≡ place.Vote vote.now.view vote.now.number }
    ensures view { vote.now.view ≤ most_number }
    ensures number { vote.now.number ≤ most_number }
{
    Place::Vote {
        view: vote.view(),
        number: vote.number(),
    }
}

/// The place that a CHECKPOINT is of.
pub(crate) fn of_checkpoint(checkpoint: &Checkpoint) -> Place
    ensures value { result ≡ place.Checkpoint checkpoint.now.number }
    ensures number { checkpoint.now.number ≤ most_number }
{
    Place::Checkpoint {
        number: checkpoint.number(),
    }
}

/// The place that a VIEW-CHANGE is of.
pub(crate) fn of_view_change(change: &ViewChange) -> Place
    ensures value { result ≡ place.ViewChange change.now.view }
    ensures view { change.now.view ≤ most_number }
{
    Place::ViewChange {
        view: change.view(),
    }
}

/// The place that a NEW-VIEW is of.
pub(crate) fn of_new_view(new: &NewView) -> Place
    ensures value { result ≡ place.NewView new.now.view }
    ensures view { new.now.view ≤ most_number }
{
    Place::NewView { view: new.view() }
}
