// Examples, run as tests.
#![tactic(auto)]

#[cfg(test)]
mod bytes;
