//! Lists with a changed element, and the bits of bitmaps: definitions that `markbits` and `model` share, and lemmas on
//! them. There is no code here.
#![tactic(auto)]
