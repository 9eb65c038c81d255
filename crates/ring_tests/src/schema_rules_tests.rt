use schema_rules::Rules;
use std::test::Fail;

fn crosses<T: Send + Sync>(_: &T) {}

#[test]
fn rules_may_cross_threads(rt: HostRuntime) -> Result<(), Fail> {
    let schemas = b"[a]\npattern = ^carbon\\.\nretentions = 60:90d\n";
    let aggregations = b"[a]\npattern = \\.min$\naggregationMethod = min\n";
    let rules = Rules::read(rt.alloc(), schemas, aggregations)?;
    crosses(&rules);
    Ok(())
}
