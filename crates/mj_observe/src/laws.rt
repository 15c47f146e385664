//! Laws of the public view. Nothing here runs: the functions are the places where the laws are stated.

ghost use Rattle.mj_observe.specs.Laws.{WatchersLearnNoMore, ViewsGrow, OthersAreToldAll, TokensHoldNoSecret, AreAlikeInPublic};

/// A watcher is told no more than it may learn: the public view of played deeds is the same for all played deeds with the same public
/// trace, under whatever rules and with whatever walls. So before a hand has ended no byte depends on what is hidden in it: the hands
/// that are dealt, the tiles that are drawn, the call that is kept at an accepted reach, and the winners after one.
pub fn watchers_learn_no_more()
    ensures { WatchersLearnNoMore }
{}

/// The public view of a deed more is that of the deeds before, and what the deed adds.
pub fn views_grow()
    ensures { ViewsGrow }
{}

/// But for a start of a game, a start of a hand and a draw the public line of a deed is the one that each seat is told.
pub fn others_are_told_all()
    ensures { OthersAreToldAll }
{}

/// What everybody sees of a deed tells no secret of the hand: neither the hands that are dealt, nor a tile that is drawn, nor the call that
/// is kept at an accepted reach, nor the winners after one.
pub fn public_tokens_hold_no_secret()
    ensures { TokensHoldNoSecret }
{}

/// Some played deeds are alike for watchers and differ in what is hidden: every seat holds other tiles, and each tile that is drawn is
/// another.
pub fn some_deeds_are_alike_in_public()
    ensures { AreAlikeInPublic }
{}
