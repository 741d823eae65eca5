// The most cycles of each call, counted by hand from the command tables.
use calls::call::Call;
use flash::address::Column;
use flash::page::Page;
use flash::part::Part;
use std::process::Abort;

const PAGE: Page = Page { block: 5, page: 3 };
// A chain slip of that page: 8 times its row, and 3.
const SLIP: u32 = 8 * (64 * 5 + 3) + 3;

// A call, and its most cycles on the 1 Gbit and the 2 Gbit part: with 1 poll and 2 bytes to program,
// and with 1,000 polls and 2,112 bytes.
#[derive(Clone, Copy)]
struct Count(Call, [usize; 2], [usize; 2]);

const COUNTS: [Count; 17] = [
    Count(Call::Identify, [10, 10], [1009, 1009]),
    Count(Call::Look(PAGE), [10, 11], [1009, 1010]),
    Count(Call::Close, [0, 0], [0, 0]),
    Count(
        Call::Read {
            page: PAGE,
            column: Column::FIRST,
            length: 0,
        },
        [9, 10],
        [1008, 1009],
    ),
    Count(
        Call::Read {
            page: PAGE,
            column: Column::FIRST,
            length: 2,
        },
        [11, 12],
        [1010, 1011],
    ),
    Count(
        Call::Read {
            page: PAGE,
            column: Column::FIRST,
            length: 2112,
        },
        [2121, 2122],
        [3120, 3121],
    ),
    Count(Call::Erase { block: 5 }, [4, 5], [4, 5]),
    Count(
        Call::Program {
            page: PAGE,
            column: Column::FIRST,
        },
        [8, 9],
        [2118, 2119],
    ),
    Count(
        Call::CacheFirst {
            page: PAGE,
            column: Column::FIRST,
        },
        [8, 9],
        [2118, 2119],
    ),
    Count(
        Call::CacheNext {
            slip: SLIP,
            page: 4,
            column: Column::FIRST,
        },
        [10, 11],
        [3119, 3120],
    ),
    Count(
        Call::CacheLast {
            slip: SLIP,
            page: 4,
            column: Column::FIRST,
        },
        [10, 11],
        [3119, 3120],
    ),
    Count(
        Call::Copy {
            source: PAGE,
            destination: PAGE,
        },
        [14, 16],
        [1013, 1015],
    ),
    Count(Call::Settle { slip: SLIP }, [2, 2], [1001, 1001]),
    Count(Call::Abandon { slip: SLIP }, [3, 3], [1002, 1002]),
    Count(Call::Reset, [3, 3], [1002, 1002]),
    Count(Call::Pick { from: 0 }, [0, 0], [0, 0]),
    Count(Call::Record { block: 5 }, [0, 0], [0, 0]),
];

fn check_most(rt: &impl Abort, call: Call, polls: u16, count: usize, most: [usize; 2]) {
    let [one, two] = most;
    assert_eq!(rt; call.most_cycles(Some(Part::OneGbit), polls, count), one);
    assert_eq!(rt; call.most_cycles(Some(Part::TwoGbit), polls, count), two);
}

fn check_read(rt: &impl Abort, length: usize, most: [usize; 2]) {
    let call = Call::Read {
        page: PAGE,
        column: Column::FIRST,
        length,
    };
    check_most(rt, call, 1, 0, most);
}

const TOP: usize = usize::MAX;

#[test]
fn the_most_cycles(rt: HostRuntime) {
    for Count(call, few, many) in COUNTS {
        check_most(&rt, call, 1, 2, few);
        check_most(&rt, call, 1000, 2112, many);
        // no call has bytes enough to come back to a small number
        let [_, many] = many;
        assert!(rt; call.most_cycles(Some(Part::TwoGbit), 1000, TOP) >= many);
    }
    check_read(&rt, TOP, [TOP, TOP]);
    check_read(&rt, TOP - 9, [TOP, TOP]);
    check_read(&rt, TOP - 10, [TOP - 1, TOP]);
    check_most(&rt, Call::Settle { slip: 0 }, 65_535, 0, [65_536, 65_536]);
    check_most(&rt, Call::Identify, 0, 0, [9, 9]);
    // before the part is known
    assert_eq!(rt; Call::Identify.most_cycles(None, 3, 0), 12);
    assert_eq!(rt; Call::Reset.most_cycles(None, 3, 0), 5);
}
