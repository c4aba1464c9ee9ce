//! Tests of [`sql_values`], over the library as it is built: there, a check of them would prove the library once more.
#![tactic(auto)]

#[cfg(test)]
mod key_set_tests;
#[cfg(test)]
mod tests;
