// What texts of replicas are of.
ghost use Rattle.std.specs.Prelude.{◌≡◌, ◌+◌, ◌<◌, ◌≤◌, ◌^◌, length};
ghost use Rattle.lms.specs.Bytes.{word_at};
ghost use Rattle.bfs_auth.specs.Places.{double_at, place_in};

/// What a text of a replica's is of. Of one place a correct replica says one text.
#[derive(Clone, Copy, Debug, PartialEq, Eq)]
pub enum Place {
    /// A number in a view: of a primary the PRE-PREPARE, of a backup the PREPARE.
    Vote { view: u64, number: u64 },
    /// The CHECKPOINT behind a number.
    Checkpoint { number: u64 },
    /// The VIEW-CHANGE that asks for a view.
    ViewChange { view: u64 },
    /// The NEW-VIEW that begins a view.
    NewView { view: u64 },
}

const PRE_PREPARE_TAG: u32 = 2;

const PREPARE_TAG: u32 = 3;

const CHECKPOINT_TAG: u32 = 5;

const VIEW_CHANGE_TAG: u32 = 6;

const NEW_VIEW_TAG: u32 = 7;

/// What the text is of; `None` of a COMMIT, of all that is said to or by clients, and where it ends too early.
#[tactic(auto, unfolding(crate::specs::Places::place_in))]
pub fn place_in(text: &[u8]) -> Option<Place>
    ensures { result ≡ place_in text.now }
{
    if text.len() < 16 {
        return None;
    }
    let first = double_at(text, 8);
    match word_at(text, 0) {
        PRE_PREPARE_TAG | PREPARE_TAG if text.len() >= 24 => Some(Place::Vote {
            view: first,
            number: double_at(text, 16),
        }),
        CHECKPOINT_TAG => Some(Place::Checkpoint { number: first }),
        VIEW_CHANGE_TAG => Some(Place::ViewChange { view: first }),
        NEW_VIEW_TAG => Some(Place::NewView { view: first }),
        _ => None,
    }
}

fn word_at(bytes: &[u8], place: usize) -> u32
    requires { place + 4 ≤ length bytes.now }
    ensures { result ≡ word_at place bytes.now }
{
    let mut word = [0; 4];
    word.copy_from_slice(&bytes[place..place + 4]);
    u32::from_be_bytes(word)
}

fn double_at(bytes: &[u8], place: usize) -> u64
    requires { place + 8 ≤ length bytes.now }
    ensures { result ≡ double_at place bytes.now }
{
    let mut double = [0; 8];
    double.copy_from_slice(&bytes[place..place + 8]);
    u64::from_be_bytes(double)
}
