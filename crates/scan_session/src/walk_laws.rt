//! The laws of walks and fetches.
ghost use Rattle.scan_session.specs.WalkLaws.{NothingIsSkipped, PiecesBeginTheAnswer, WalksAreWhole, WalksJoin, WalksGoOn, WalksBeginLower, WalksAreBounded, PiecesPartNoKey, WalksNeverFall, KeysStandInOnePiece, RowsStandInOnePiece, DifferentKeysRise, FetchesWalk, RestIsLeft, EnoughIsTaken, NoMoreIsTaken, DifferentKeysAreCounted};

/// At one number of mutations a walk gives each entry once and skips none.
pub fn walks_are_whole()
    ensures skips { NothingIsSkipped }
    ensures begin { PiecesBeginTheAnswer }
    ensures whole { WalksAreWhole }
{}

/// Walks are put together: one behind the other, over a log that grew, from a lower number on.
pub fn walks_go_on()
    ensures join { WalksJoin }
    ensures further { WalksGoOn }
    ensures lower { WalksBeginLower }
    ensures bounded { WalksAreBounded }
{}

/// Along a walk no key is less than one before it, and entries with equal keys stand in one piece, whatever came in between.
pub fn keys_never_fall()
    ensures ends { PiecesPartNoKey }
    ensures never { WalksNeverFall }
    ensures one_piece { KeysStandInOnePiece }
    ensures one_row { RowsStandInOnePiece }
{}

/// Where all keys are different, those of a walk rise, and a plain fetch counts entries.
pub fn different_keys_rise()
    ensures rise { DifferentKeysRise }
    ensures counted { DifferentKeysAreCounted }
{}

/// A fetch goes on with a walk, and leaves the rest.
pub fn fetches_walk()
    ensures walk { FetchesWalk }
    ensures rest { RestIsLeft }
{}

/// A fetch takes as many entries as were asked for and no more than it has to, or all that are left.
pub fn what_is_taken()
    ensures enough { EnoughIsTaken }
    ensures no_more { NoMoreIsTaken }
{}
