//! Worked examples of the definitions: what scripts mean, each a theorem by computation in `proofs/`, and texts with their
//! certificates, so that what is said of scripts and certificates can be met.
#![tactic(auto)]
