//! What the text of `replay` says of scans and sessions.
ghost use Rattle.tablet_replay.specs.Headline.{AnswersStandInOrder, ScansAreWhole, OpeningsCover, RenewalsCover, FetchesSayTheirPieces, SessionsWalk, StepsChangeNoAnswer};

/// Each line is answered in its turn, and a scan by the whole answer over all mutations accepted before it.
pub fn scans_are_whole()
    ensures order { AnswersStandInOrder }
    ensures whole { ScansAreWhole }
{}

/// All that a session is given, from its opening until it is closed, is a walk over the history, at numbers that never fall. Each
/// number is printed, and covers all mutations accepted before the opening or the last renewal.
pub fn sessions_walk()
    ensures opening { OpeningsCover }
    ensures renewal { RenewalsCover }
    ensures said { FetchesSayTheirPieces }
    ensures walk { SessionsWalk }
{}

/// A step that adds no mutation, as a compaction is one, changes no later answer of a scan or a session.
pub fn steps_change_no_answer()
    ensures { StepsChangeNoAnswer }
{}
