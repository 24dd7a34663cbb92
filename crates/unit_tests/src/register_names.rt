//! The names of registers.

use ia_insn::{Br, Gr, Pr};
use std::test::Fail;

#[test]
fn registers_print_their_names(rt: HostRuntime) -> Result<(), Fail> {
    let mut names = String::new(rt.alloc());
    if let (Some(r), Some(p), Some(b)) = (Gr::new(127), Pr::new(63), Br::new(7)) {
        write!(names, "{r} {p} {b}")?;
    }
    assert_eq!(rt; names.as_str(), "r127 p63 b7");
    Ok(())
}
