// What replicas say of a change of the view (OSDI 1999 section 4.4).
ghost use Rattle.bfs_codec.specs.ChangeReading.{prepared_batch_from, new_view_from, view_change_from};

use crate::error::{DecodeError, Malformed};
use crate::parts::Read;
use crate::reader::MessageReader;
use bfs_messages::{Checkpoint, NewView, PrePrepare, PreparedBatch, Signed, ViewChange, Vote};
use bfs_types::{LOG_SIZE, MOST_REPLICAS};

impl Read for PreparedBatch {
    ghost from = { prepared_batch_from };

    #[tactic(auto, unfolding(crate::specs::ChangeReading::prepared_batch_from))]
    fn read(reader: &mut MessageReader<'_>) -> Result<PreparedBatch, DecodeError> {
        let proposal = Signed::<PrePrepare>::read(reader)?;
        let prepares = reader.list(MOST_REPLICAS as u32)?;
        Ok(PreparedBatch::new(proposal, prepares))
    }

    #[tactic(auto, unfolding(crate::specs::ChangeReading::prepared_batch_from))]
    fn skip(reader: &mut MessageReader<'_>) -> Result<(), Malformed> {
        Signed::<PrePrepare>::skip(reader)?;
        reader.skip_list::<Signed<Vote>>(MOST_REPLICAS as u32)
    }
}

impl Read for ViewChange {
    ghost from = { view_change_from };

    #[tactic(auto, unfolding(crate::specs::ChangeReading::view_change_from))]
    fn read(reader: &mut MessageReader<'_>) -> Result<ViewChange, DecodeError> {
        let sender = reader.u32()?;
        let view = reader.number()?;
        let stable = reader.number()?;
        let checkpoints = reader.list(MOST_REPLICAS as u32)?;
        let certificates = reader.list(LOG_SIZE as u32)?;
        Ok(ViewChange::new(sender, view, stable, checkpoints, certificates))
    }

    #[tactic(auto, unfolding(crate::specs::ChangeReading::view_change_from))]
    fn skip(reader: &mut MessageReader<'_>) -> Result<(), Malformed> {
        reader.u32()?;
        reader.number()?;
        reader.number()?;
        reader.skip_list::<Signed<Checkpoint>>(MOST_REPLICAS as u32)?;
        reader.skip_list::<PreparedBatch>(LOG_SIZE as u32)
    }
}

impl Read for NewView {
    ghost from = { new_view_from };

    #[tactic(auto, unfolding(crate::specs::ChangeReading::new_view_from))]
    fn read(reader: &mut MessageReader<'_>) -> Result<NewView, DecodeError> {
        let sender = reader.u32()?;
        let view = reader.number()?;
        let changes = reader.list(MOST_REPLICAS as u32)?;
        let proposals = reader.list(LOG_SIZE as u32)?;
        Ok(NewView::new(sender, view, changes, proposals))
    }

    #[tactic(auto, unfolding(crate::specs::ChangeReading::new_view_from))]
    fn skip(reader: &mut MessageReader<'_>) -> Result<(), Malformed> {
        reader.u32()?;
        reader.number()?;
        reader.skip_list::<Signed<ViewChange>>(MOST_REPLICAS as u32)?;
        reader.skip_list::<Signed<PrePrepare>>(LOG_SIZE as u32)
    }
}
