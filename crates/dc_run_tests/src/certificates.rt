//! What the fault of a certificate's text says in words.

use dc_cert::{CertFault, CertRule, Fault, TextPlace};
use std::rt::HostRuntime;
use std::test::Fail;

#[test]
fn tells_a_fault_in_words(rt: HostRuntime) -> Result<(), Fail> {
    let fault = CertFault::Unreadable(Fault {
        rule: CertRule::KeyUnknown,
        place: TextPlace::Labels(7),
    });
    let words = format!(in rt.alloc(); "{fault}")?;
    assert!(rt; words.as_str() == "labels 7: a key is unknown");
    Ok(())
}
