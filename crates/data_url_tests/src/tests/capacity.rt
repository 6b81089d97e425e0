//! How much room is allocated for a body.

use super::{assert_that, with_run};
use data_url::DataUrl;
use data_url::forgiving_base64::decode_to_vec;
use std::alloc::Global;
use std::process::Abort;
use std::test::Fail;

/// Asserts the capacity of the vector of a URL's body.
fn assert_capacity(
    rt: &impl Abort,
    alloc: Global,
    parts: [&str; 3],
    capacity: usize,
) -> Result<(), Fail> {
    let text = with_run(alloc, parts, 900)?;
    let url = DataUrl::process(alloc, text.as_str())?;
    let (bytes, fragment) = url.decode_to_vec(alloc)?;
    assert_that(rt, "capacity", bytes.capacity() == capacity);
    assert_that(rt, "fragment", fragment.is_some());
    Ok(())
}

/// Asserts the capacity of the vector of a text of base64.
fn assert_capacity_of_text(rt: &impl Abort, alloc: Global) -> Result<(), Fail> {
    let symbols = "QUJD".repeat(alloc, 900)?;
    let bytes = decode_to_vec(alloc, symbols.as_bytes())?;
    assert_that(rt, "capacity", bytes.capacity() == 2700);
    Ok(())
}

/// A body of one stretch takes room for itself, and not for the fragment. For others, at most 64 KiB are taken first,
/// or the bytes before the first tab, newline or `%` if these are more.
#[test]
fn capacity_is_that_of_the_body(rt: HostRuntime) -> Result<(), Fail> {
    let alloc = rt.alloc();
    assert_capacity(&rt, alloc, ["data:,", "abcd", "#c d"], 3600)?;
    let parts = ["data:;base64,", "QUJD", "QUJD#c d"];
    assert_capacity(&rt, alloc, parts, 2703)?;
    assert_capacity(&rt, alloc, ["data:,", "%41b", "#c d"], 3604)?;
    let parts = ["data:;base64,", "QUJD\n", "QUJD#c d"];
    assert_capacity(&rt, alloc, parts, 3381)?;
    let hundred =
        "0123456789012345678901234567890123456789012345678901234567890123456789012345678901234567890123456789";
    assert_capacity(&rt, alloc, ["data:,%41#", hundred, ""], 65536)?;
    assert_capacity_of_text(&rt, alloc)
}
