// A worked sheet, tried: each refusal is reached, and what it leaves is compared.
#![tactic(auto)]

#[cfg(test)]
mod files;
#[cfg(test)]
mod runs;
#[cfg(test)]
mod sample;
#[cfg(test)]
mod sheets;
