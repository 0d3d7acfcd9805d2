//! Lemmas on lists, options and tests that don't depend on what they are about. It has no code: `proofs/All` is on what holds
//! of each element, `proofs/Distinct` on lists of which no two are equal, `proofs/Positions` on the first element that passes
//! a test, `proofs/Cuts` on lists that are cut there, and `proofs/Options` on choices and on values that may be missing.
#![tactic(auto)]
