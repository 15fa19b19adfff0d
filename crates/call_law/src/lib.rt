//! What a call adds to what its pass knows: own answers, changes, refused tries and references, and when
//! it answers its operation once. Plain definitions and lemmas alone: nothing here runs.
#![tactic(auto)]
