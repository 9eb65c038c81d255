#![tactic(auto)]

#[cfg(test)]
mod carbon_run_serve_tests;
#[cfg(test)]
mod carbon_run_tests;
#[cfg(test)]
mod http_front_cut_tests;
#[cfg(test)]
mod http_front_kit;
#[cfg(test)]
mod http_front_name_tests;
#[cfg(test)]
mod http_front_reason_tests;
#[cfg(test)]
mod http_front_tests;
#[cfg(test)]
mod line_front_tests;
#[cfg(test)]
mod moving_clock;
