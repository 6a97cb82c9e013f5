// The promise of the whole is in specs/Promise.antt.
#![tactic(auto)]
