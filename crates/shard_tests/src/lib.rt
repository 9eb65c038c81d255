#![tactic(auto)]

#[cfg(test)]
mod shard_core_start_tests;
#[cfg(test)]
mod shard_core_tests;
#[cfg(test)]
mod shard_kit;
#[cfg(test)]
mod shard_set_tests;
