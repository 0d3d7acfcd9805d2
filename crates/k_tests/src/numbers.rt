// The ranks, and worked lists of numbers.
use k_locks::{Lock, Numbers, rank};

#[test]
fn locks_are_taken_table_first_and_ready_last(rt: HostRuntime) {
    assert_eq!(rt; rank(Lock::Table), 0);
    assert_eq!(rt; rank(Lock::Thread(5)), 1);
    assert_eq!(rt; rank(Lock::Ready), 2);
}

#[test]
fn a_number_is_used_again_until_its_last_version(rt: HostRuntime) {
    let mut numbers = Numbers {
        versions: [0; 64],
        present: 0b0011,
        count: 4,
    };
    numbers.versions[0] = 1;
    numbers.versions[1] = 1;
    numbers.versions[2] = 1_048_575;
    numbers.versions[3] = 1_048_574;
    assert_eq!(rt; (numbers.alive(), numbers.worn()), (2, 1));
    assert_eq!(rt; numbers.lowest_free(), Some(3));
    let full = numbers.with_thread(3);
    assert_eq!(rt;
        (full.alive(), full.worn(), full.lowest_free()),
        (3, 1, None)
    );
    assert_eq!(rt; (full.present, full.versions[3]), (0b1011, 1_048_575));
    let freed = full.without_thread(0);
    assert_eq!(rt; (freed.present, freed.versions[0]), (0b1010, 1));
    assert_eq!(rt; freed.lowest_free(), Some(0));
    let gone = full.without_thread(3);
    assert_eq!(rt; (gone.worn(), gone.lowest_free()), (2, None));
}
