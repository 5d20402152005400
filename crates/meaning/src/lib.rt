// What a zone says of a name and a kind: the rules, the function that follows them, and its laws. No code, only theorems.
#![tactic(auto)]

ghost use Rattle.meaning.specs.Cases.{CasesHold};
ghost use Rattle.meaning.specs.Laws.{SaysLaws};
ghost use Rattle.meaning.specs.Says.{SaysMeans};

// The rules of what a zone says have one answer, whatever the order of its sets, and `says` gives it.
pub fn says_means()
    ensures { SaysMeans }
{}

// The laws of what a zone says, for the layers above.
pub fn says_laws()
    ensures { SaysLaws }
{}

// The table of worked cases.
pub fn cases_hold()
    ensures { CasesHold }
{}
