use std::alloc::Global;
use std::process::Abort;
use std::test::Fail;
use test_fixtures::{Run, replies_of};

/// Runs requests, and compares what they give. A test that only calls this is proved in a second or
/// two.
pub(crate) fn expect_run<R: Abort>(rt: &R, alloc: Global, run: &Run) -> Result<(), Fail> {
    let replies = replies_of(alloc, run)?;
    assert!(rt; replies.as_slice() == run.replies, "{replies:?}");
    Ok(())
}
