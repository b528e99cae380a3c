//! What the target's side of a session keeps without its history, and what each call makes of it: no body, and no proof that it
//! answers as the rules do. The worked lists of the rules are computed against it.
#![tactic(auto)]
