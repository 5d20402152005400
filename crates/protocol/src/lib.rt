// The whole service as one model: owners, copies, a resolver and a net, with the proof of its one sentence. No code, only theorems.
#![tactic(auto)]

ghost use Rattle.protocol.specs.Cases.{CasesHold};
ghost use Rattle.protocol.specs.Promise.{HistoryTrue, OneVersion, BoundExact, HearLaws, AskLaw, WalkLaws, Main};
ghost use Rattle.protocol.specs.Words.{WordLaws};

// The promise: whatever owners, servers, net and questions did, every word that is shown is fresh; where owners rest, what
// is shown is what is meant; and no state is a dead end.
pub fn promise_stands()
    ensures { Main }
{}

// The bound on the age of a word is reached by some run, and never passed.
pub fn bound_is_exact()
    ensures { BoundExact }
{}

// The laws of words, from those of what a zone says.
pub fn word_laws()
    ensures { WordLaws }
{}

// The tests over the history of versions mean what the run of events says.
pub fn history_is_true()
    ensures { HistoryTrue }
{}

// An apex and a serial name one version.
pub fn serials_name_versions()
    ensures { OneVersion }
{}

// A response counts only for a pending query of its id and apex, and closes it.
pub fn hear_laws()
    ensures { HearLaws }
{}

// Only servers that are named for a zone are asked.
pub fn ask_law()
    ensures { AskLaw }
{}

// A walk goes by words alone, and without aliases it ends.
pub fn walk_laws()
    ensures { WalkLaws }
{}

// The table of worked cases.
pub fn cases_hold()
    ensures { CasesHold }
{}
