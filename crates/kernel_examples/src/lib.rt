// Kernels worked out by hand, as tests.
#![tactic(auto)]

#[cfg(test)]
mod tests;
