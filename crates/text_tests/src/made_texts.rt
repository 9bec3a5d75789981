//! Made texts against values that were worked out by hand.

use made_model::{made_summary, made_text};
use std::test::Fail;

/// The made text of two variables. Its draws that give the gaps are 20422, 37230, 5441, 53987, 19700, 59456, 23990 and 33414.
const TWO: &str = "var 0..18: x1;
var 0..18: x2;
constraint int_lin_le([1,-1],[x1,x2],-2);
constraint int_lin_le([1,-1],[x1,x2],-7);
constraint int_lin_le([1,-1],[x1,x2],-6);
constraint int_lin_le([1,-1],[x1,x2],-6);
constraint int_lin_le([1,-1],[x1,x2],-9);
constraint int_lin_le([1,-1],[x1,x2],-3);
constraint int_lin_le([1,-1],[x1,x2],-6);
constraint int_lin_le([1,-1],[x1,x2],-7);
solve minimize x2;
";

#[test]
fn a_made_text_of_two_variables(rt: HostRuntime) -> Result<(), Fail> {
    let text = made_text(rt.alloc(), 2)?;
    assert_eq!(rt; text.as_slice(), TWO.as_bytes());
    Ok(())
}

#[test]
fn summaries_of_made_texts(rt: HostRuntime) -> Result<(), Fail> {
    for (variables, objective, expected) in [
        (2, Some(9), "variables 2 kernels 8 objective 9\n"),
        (
            2000,
            None,
            "variables 2000 kernels 8000 objective unknown\n",
        ),
    ] {
        let line = made_summary(rt.alloc(), variables, objective)?;
        assert_eq!(rt; line.as_slice(), expected.as_bytes());
    }
    Ok(())
}
