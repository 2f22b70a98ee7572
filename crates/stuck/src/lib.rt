// Touching and sticking, for any list of slot triples: theory only. Begin with specs/Stuck (definitions); then Survives (the largest stuck set),
// proofs/RemovesAll and HowMany; Fill and FillAnswers (filling backwards); FirstFree (the search over attempts). What rests on a definition that a
// must-fail edit turns stands in proofs/.
#![tactic(auto)]
