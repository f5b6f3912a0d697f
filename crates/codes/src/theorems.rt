ghost use Rattle.codes.specs.Forward.{GroupedForward, SteppedForward, WithinForward, ClearForward};
ghost use Rattle.codes.specs.Laws.{PrefixFree, Decodes, FewerSteps, ReadsBack, Bounded, AcceptedFormed, DecodesAccepted, RoundTrip, SameCode, NoCodeBegins};
ghost use Rattle.grammar.specs.Readings.{Repeat};

// Stands for the theorems: a code tells its reading and where it ends, it is decoded exactly where it is one, and fewer steps allowed
// never show another reading.
pub fn prefix_free() -> bool
    ensures free { PrefixFree }
    ensures decodes { Decodes }
    ensures fewer { FewerSteps }
{
    true
}

// Stands for the theorems: one pass forward over a run of commands tells whether it has pieces and how many, and whether they are allowed.
pub fn runs_forward() -> bool
    ensures grouped { GroupedForward Repeat × GroupedForward ⊥ }
    ensures stepped { SteppedForward ⊥ }
    ensures within { WithinForward Repeat }
    ensures clear { ClearForward }
{
    true
}

// Stands for the theorems: the template written back from a reading has that reading and is at most four times as long as its code, and what
// is accepted has numbers in their bounds, texts apart and no closing mark in a separator.
pub fn written_back() -> bool
    ensures back { ReadsBack }
    ensures bounded { Bounded }
    ensures formed { AcceptedFormed }
{
    true
}

// Stands for the theorems: bytes are decoded exactly where they are an accepted template's code; written back it is accepted with the same
// code; equal codes are equal readings; no code begins another.
pub fn accepted_codes() -> bool
    ensures decoded { DecodesAccepted }
    ensures back { RoundTrip }
    ensures same { SameCode }
    ensures begins { NoCodeBegins }
{
    true
}
