ghost use Rattle.matching.specs.Ways.{AtMostOne};
ghost use Rattle.matching.specs.Best.{BestIsMatch};
ghost use Rattle.matching.specs.Grammar.{ReadsPatterns};
ghost use Rattle.matching.specs.Places.{MatchesSpan, GroupsRun, MarksOnce};

// A name is matched in at most one way, and `best` finds exactly that one.
pub fn matches_stand()
    ensures one { AtMostOne }
    ensures best { BestIsMatch }
{}

// A text is read as items exactly when it is a pattern of the grammar.
pub fn readings_stand()
    ensures { ReadsPatterns }
{}

// A match has as many places as its pattern counts, all in the name, and each group runs from its one opening
// mark to its one closing mark.
pub fn places_stand()
    ensures within { MatchesSpan }
    ensures groups { GroupsRun }
    ensures once { MarksOnce }
{}
