//! Examples of the definitions: what each says of a given text, in `proofs/`, computed by the checker; and laws of them,
//! in `laws`. No code has a part in them: each law is the contract of a function that does nothing.
#![tactic(auto)]

pub mod laws;
