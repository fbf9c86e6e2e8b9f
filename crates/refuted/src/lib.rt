// The wrong programs of document 01, each refuted over the promise of its job: specs/ has the programs, proofs/ the refutations. There is
// no code here.
#![tactic(auto)]
