//! The limits of a program, one below and one above.

use super::{Verdict, answered};
use std::alloc::{AllocError, Global};
use std::test::*;

// A text, a part so many times, and another text.
fn repeated(
    alloc: Global,
    before: &str,
    part: &str,
    times: usize,
    behind: &str,
) -> Result<String, AllocError> {
    let mut text = String::from_str(alloc, before)?;
    for _ in 0..times {
        text.push_str(part)?;
    }
    text.push_str(behind)?;
    Ok(text)
}

const SHARED: &str = "int a;\n#pragma hls node(a)\nint main(void) {\n";

const BARRIER: &str = "#pragma hls barrier(a)\n";

#[test]
fn limits_are_kept_to_the_last(rt: HostRuntime) -> Result<(), Fail> {
    let alloc = rt.alloc();
    let end = "return 0; }";
    let most = repeated(alloc, SHARED, BARRIER, 256, end)?;
    assert_eq!(rt; answered(alloc, most.as_str())?, Verdict::Accepted(1, 1, 1));
    let more = repeated(alloc, SHARED, BARRIER, 257, end)?;
    assert_eq!(rt; answered(alloc, more.as_str())?, Verdict::Rule(33, 260));
    let blocks = "{ static int x; }\n";
    let most = repeated(alloc, "int main(void) {\n", blocks, 4096, end)?;
    assert_eq!(rt;
        answered(alloc, most.as_str())?,
        Verdict::Accepted(1, 4096, 0)
    );
    let more = repeated(alloc, "int main(void) {\n", blocks, 4097, end)?;
    assert_eq!(rt; answered(alloc, more.as_str())?, Verdict::Rule(5, 4098));
    let more = repeated(alloc, "int a, b;\nint main(void) {\n", blocks, 4095, end)?;
    assert_eq!(rt; answered(alloc, more.as_str())?, Verdict::Rule(5, 4097));
    Ok(())
}
