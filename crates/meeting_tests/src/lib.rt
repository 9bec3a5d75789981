//! The gate of tests at which two meet, tried by one thread: that it tells when not all came.
#![tactic(auto)]

#[cfg(test)]
mod passes;
