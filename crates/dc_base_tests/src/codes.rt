//! That each code has its meaning, and no more are told than there are.

use dc_codes::{Kind, all, meaning_of};
use std::test::Fail;

#[test]
fn each_code_has_its_meaning(rt: HostRuntime) -> Result<(), Fail> {
    for (kind, name) in all().iter() {
        assert!(rt; meaning_of(*kind, name).is_some());
    }
    assert!(rt; meaning_of(Kind::Reply, "spent").is_none());
    Ok(())
}
