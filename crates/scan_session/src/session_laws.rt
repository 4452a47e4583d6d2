//! The laws of sessions.
ghost use Rattle.scan_session.specs.SessionLaws.{AnswersStandInOrder, StayingWalks, RenewalsWalk, SessionsGoOn, SessionsWalkOverHistories, SessionsAreWhole};
ghost use Rattle.scan_session.specs.UntimedLaws.{UntimedAnswersDiffer, UntimedKeysRise, UntimedEntriesAreCounted};

/// What a session answers is in order.
pub fn sessions_answer_in_order()
    ensures { AnswersStandInOrder }
{}

/// The pieces of a session's fetches, renewals and teardowns in a row are one walk, and over a history that goes on too.
pub fn sessions_walk()
    ensures stay { StayingWalks }
    ensures renew { RenewalsWalk }
    ensures join { SessionsGoOn }
    ensures history { SessionsWalkOverHistories }
    ensures whole { SessionsAreWhole }
{}

/// Where no family is timed, no two entries that a session answers have one key, so keys rise along its pieces and a plain fetch counts entries.
pub fn untimed_answers_differ()
    ensures differ { UntimedAnswersDiffer }
    ensures rise { UntimedKeysRise }
    ensures counted { UntimedEntriesAreCounted }
{}
