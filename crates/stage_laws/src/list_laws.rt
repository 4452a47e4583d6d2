//! What stages leave true of a list.
ghost use Rattle.stage_laws.specs.Laws.{StagesMayRunEarly, RestrictionCommutes, FamiliesAreColumns, FamiliesMayComeFirst, StagesAscend, StagesMakeNoKeys, StagesStayInBounds, StagesMakeReadable, MarkedIsInFront, StagesKeepFront};

/// A part may go through the first stages before.
pub fn stages_may_run_early()
    ensures { StagesMayRunEarly }
{}

/// Families may be chosen before or after.
pub fn restriction_commutes()
    ensures restriction { RestrictionCommutes }
    ensures families { FamiliesAreColumns }
    ensures chosen { FamiliesMayComeFirst }
{}

/// What stages make is again a list that stages take.
pub fn lists_stay_lawful()
    ensures ascend { StagesAscend }
    ensures keys { StagesMakeNoKeys }
    ensures bounds { StagesStayInBounds }
    ensures read { StagesMakeReadable }
    ensures marked { MarkedIsInFront }
    ensures front { StagesKeepFront }
{}
