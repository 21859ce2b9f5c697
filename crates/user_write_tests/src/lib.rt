// Tests of functions that `user_write` has for other crates. They stand in a crate of their own: another crate alone shows that it can
// call them, and port/ knows no tests in the library's crates.
#![tactic(auto)]

#[cfg(test)]
mod tests;
