//! What is said of replicas over all their lives. The bodies only call what is proved of processes and journals: what is said is each contract.
ghost use Rattle.bfs_recovery.specs.Journals.{TheNodeComesBack};
ghost use Rattle.bfs_recovery.specs.Lives.{LivesAgree};
ghost use Rattle.bfs_recovery.specs.Saying.{LivesSayOneText};

use bfs_journal::fronts_are_read;
use bfs_places::laws::{one_text_of_each_index, one_text_of_each_place};
use bfs_service::processes_agree;

/// A crash is a pause: over all lives of all replicas' processes there are turns without any crash that make of them the same and tell all that was told, so replicas
/// agree. A turn that was not answered may be among these turns or not, and so may one of which nothing was told and behind which the process ended.
pub fn lives_agree()
    ensures { LivesAgree }
{
    processes_agree();
}

/// And whatever a correct replica has told in any of its lives, where there are others, was said in those turns, or is a NEW-VIEW that came to it: of all that was said
/// there, any two messages of one place have one text, and so have any two that a key signs by one index, in one life or in two. What a process had made and not told,
/// as it ended, is not spoken of.
pub fn lives_say_one_text()
    ensures { LivesSayOneText }
{
    lives_agree();
    one_text_of_each_place();
    one_text_of_each_index();
}

/// For every count of bytes of a replica's journal that reaches what was synced, the replica is recovered as it was behind a beginning of its turns that has all
/// synced ones.
pub fn the_node_comes_back()
    ensures { TheNodeComesBack }
{
    fronts_are_read();
}
