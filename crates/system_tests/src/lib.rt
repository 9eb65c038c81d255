#![tactic(auto)]

#[cfg(test)]
mod folder_disk_tests;
#[cfg(test)]
mod gate_io_tests;
#[cfg(test)]
mod outside_io_tests;
