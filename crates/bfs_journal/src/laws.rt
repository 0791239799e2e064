//! What is said of all journals. The bodies are empty: what is said is each contract.
ghost use Rattle.bfs_journal.specs.Laws.{CutsAreNoDamage, DamageIsTold, FrontsAreRead, OneReading, RecoversAFront, SyncedIsRead};

/// Bytes are records in one way.
pub fn one_reading()
    ensures { OneReading }
{}

/// For every count of bytes of a journal that reaches what was synced, a beginning of its records is read that has all synced ones.
pub fn fronts_are_read()
    ensures { FrontsAreRead }
{}

/// A journal that was cut anywhere is never told to be damaged: where a cut write leaves a front of it, no crash is taken for damage.
#[tactic(auto, using(crate::proofs::Fronts::cuts_are_no_damage))]
pub fn cuts_are_no_damage()
    ensures { CutsAreNoDamage }
{}

/// Whatever bytes stand behind the synced records, these are read.
#[tactic(auto, using(crate::proofs::Records::synced_is_read))]
pub fn synced_is_read()
    ensures { SyncedIsRead }
{}

/// A record that was changed is damage, whatever stands behind it, unless both of its lengths were changed, or it is still a record.
pub fn damage_is_told()
    ensures { DamageIsTold }
{}

/// A machine that is started again from its journal is where a beginning of its steps led it, which has all that were synced.
pub fn recovers_a_front<S>()
    ensures { RecoversAFront S }
{}
