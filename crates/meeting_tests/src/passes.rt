//! Which calls make a gate passed.

use gate::Gate;
use meeting::Meet;
use std::test::Fail;

/// The calls that a gate waits for, in an order in which none has to wait.
static CALLS: [(u32, u64); 3] = [(1, 1), (0, 0), (1, 0)];

#[test]
fn a_gate_is_passed_once_all_three_calls_were_made(rt: HostRuntime) -> Result<(), Fail> {
    let gate = Meet::new();
    for (number, turn) in &CALLS {
        assert!(rt; !gate.was_passed());
        gate.pass(*number, *turn);
    }
    assert!(rt; gate.was_passed());
    Ok(())
}
