// How cells are written.
use plane::cell::Cell;
use std::test::Fail;

// The column stands before the row.
#[test]
fn column_first(rt: HostRuntime) -> Result<(), Fail> {
    let at = Cell { x: 3, y: -5 };
    let written = format!(in rt.alloc(); "{at:?}")?;
    assert_eq!(rt; written.as_str(), "Cell { x: 3, y: -5 }");
    Ok(())
}
