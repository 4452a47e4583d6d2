//! Why the store stands for its history.
ghost use Rattle.stage_laws.specs.StoreLaws.{EmptyStoreStands, StepsStand, MutationsStand, FreezesStand, FlushesStand, CompactionsStand, StoresAnswer, StepsAreUnseen, InputsStay, FrozenPartsStay};

/// A store stands for its history, from the empty one on.
pub fn stores_stand()
    ensures empty { EmptyStoreStands }
    ensures steps { StepsStand }
{}

/// A snapshot of a store's parts stands for its log, whatever jobs run.
pub fn snapshots_stand()
    ensures mutations { MutationsStand }
    ensures freezes { FreezesStand }
    ensures flushes { FlushesStand }
    ensures compactions { CompactionsStand }
{}

/// A store answers as its history does, so no step that adds no mutation changes an answer.
pub fn steps_are_unseen()
    ensures answer { StoresAnswer }
    ensures unseen { StepsAreUnseen }
{}

/// What a job was given stays while it runs, whatever steps come between.
pub fn inputs_stay()
    ensures files { InputsStay }
    ensures frozen { FrozenPartsStay }
{}
