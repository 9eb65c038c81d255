// How many bytes values take in memory.
use fixed_num::Milli;
use series_set::Reading;
use std::process::Abort;
use std::test::Fail;

#[test]
fn a_pending_point_takes_24_bytes_and_a_value_of_a_series_16(rt: HostRuntime) -> Result<(), Fail> {
    assert!(rt; size_of::<(u32, Milli)>() == 24);
    assert!(rt; size_of::<Reading>() == 16);
    Ok(())
}
