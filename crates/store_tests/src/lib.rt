#![tactic(auto)]

#[cfg(test)]
mod shared_history_tests;
#[cfg(test)]
mod shared_store_class_tests;
#[cfg(test)]
mod shared_store_ends;
#[cfg(test)]
mod shared_store_files;
#[cfg(test)]
mod shared_store_kit;
#[cfg(test)]
mod shared_store_ninth_try_tests;
#[cfg(test)]
mod shared_store_order_tests;
#[cfg(test)]
mod shared_store_tests;
#[cfg(test)]
mod shared_store_third_try_tests;
#[cfg(test)]
mod shared_store_thread_tests;
#[cfg(test)]
mod shared_store_wait_kit;
#[cfg(test)]
mod shared_store_wait_tests;
#[cfg(test)]
mod size_tests;
