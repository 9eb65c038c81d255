//! Series as the render API has them, lists of them, and the grids to which they are brought.
#![tactic(auto)]

mod allowance;
mod averaging;
mod common;
mod grid;
mod laws;
mod multiple;
mod reading;
mod regrid;
mod series;
mod set;
mod thinning;

pub use allowance::{Allowance, MOST_WORK, Size};
pub use averaging::average_known;
pub use common::{check_pair, common_grid, common_step};
pub use grid::{EvalFault, Grid};
pub use laws::{
    agreeing_series_keep_their_grid, average_is_rounded_down, common_grid_holds_all_moments,
    common_step_is_the_least_multiple, few_values_stay, own_grid_changes_nothing,
};
pub use reading::{Reading, flattened, readings};
pub use regrid::{bucket_value, on_grid};
pub use series::{LATEST_END, MOST_VALUES, Series, WIDEST_STEP};
pub use set::{SeriesRows, SeriesSet};
pub use thinning::thin;
