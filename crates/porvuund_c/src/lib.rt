// The library for other languages, as they link it: each function is the one of that name of `porvuund`, exported.
// `rt lib` in this folder writes out/libporvuund_c.a for Rust or C.

#![tactic(auto)]

mod calls;
mod sessions;
