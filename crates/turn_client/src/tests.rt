use super::*;
use std::test::*;

#[test]
fn two_threads_add(rt: HostRuntime) -> Result<(), Fail> {
    let sum = add_by_two(&rt, rt.alloc(), 10, &[1, 2, 3], &[40, 50])
        .ok()
        .ok_or("a sum")?;
    assert_eq!(rt; sum.total, 106);
    Ok(())
}

#[test]
fn four_threads_add(rt: HostRuntime) -> Result<(), Fail> {
    let left: (&[u64], &[u64]) = (&[1, 2], &[]);
    let right: (&[u64], &[u64]) = (&[30], &[400, 5000, 60000]);
    let sum = add_by_four(&rt, rt.alloc(), u64::MAX, left, right)
        .ok()
        .ok_or("a sum")?;
    assert_eq!(rt; sum.total, 65432);
    Ok(())
}
