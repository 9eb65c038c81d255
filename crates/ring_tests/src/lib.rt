#![tactic(auto)]

#[cfg(test)]
mod metric_table_tests;
#[cfg(test)]
mod name_pattern_tests;
#[cfg(test)]
mod path_glob_tests;
#[cfg(test)]
mod schema_rules_tests;
