//! Identities and sign rules over the integers, for proofs. All of it is in `proofs/`.
#![tactic(auto)]
