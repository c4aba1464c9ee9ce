//! Tests of [`my_messages`], over the library as it is built: there, a check of them would prove the library once more.
#![tactic(auto)]

#[cfg(test)]
mod tests;
