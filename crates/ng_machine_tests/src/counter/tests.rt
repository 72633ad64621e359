// What no clause says: that the calls return, and that memory suffices.
use super::*;
use std::test::*;

// Totals for 0 to 16 workers: 1, 1 + 2, 1 + 2 + 3 and so on.
const TOTALS: [u64; 17] = [
    1, 3, 6, 10, 15, 21, 28, 36, 45, 55, 66, 78, 91, 105, 120, 136, 153,
];

// Two seats take and put, and the value at the end is 5 again.
#[test]
fn two_seats_take_and_put(rt: HostRuntime) -> Result<(), Fail> {
    let counter = Counter::new(rt.alloc(), 5, 2)?;
    let Ok(back) = pass_round(&rt, rt.alloc(), counter) else {
        panic!(&rt; "memory")
    };
    assert_eq!(rt; back.total(), 5);
    Ok(())
}

// Three seats in threads add once, twice and three times.
#[test]
fn three_threads_add_six(rt: HostRuntime) -> Result<(), Fail> {
    assert_eq!(rt; six(&rt, rt.alloc())?, 6);
    Ok(())
}

#[test]
fn each_number_of_workers(rt: HostRuntime) -> Result<(), Fail> {
    for workers in 0..17 {
        let counter = counted_by(&rt, rt.alloc(), workers)?;
        let mut total = 0;
        for seat in 0..workers + 1 {
            total = counter.additions(seat).saturating_add(total);
        }
        assert_eq!(rt; Some(&total), TOTALS.get(workers as usize));
    }
    Ok(())
}
