// Tallies: each printed, and asked once more in a lent record that holds marks before; of a cut and type in every wedge that is asked.
use ask::tallies;
use ask::tallies::{Sums, Tally};
use gates::Counts;
use printing::print_counts;
use std::io;
use wedge::Wedge;

fn print_counted(out: &impl Print, tally: Tally) -> io::Result<()> {
    let sums = tally.sums;
    print!(out;
        "{}/{}/{}/{}",
        tally.wedge.start, tally.wedge.end, sums.radials, sums.blanks
    )?;
    print_counts(out, b"/", sums.counts)
}

// No two fields hold the same, so that none can stand for another unseen.
fn marked() -> Tally {
    Tally {
        wedge: Wedge {
            start: 911,
            end: 912,
        },
        sums: Sums {
            radials: 901,
            blanks: 910,
            counts: Counts {
                below: 902,
                folded: 903,
                not_scanned: 904,
                unknown: 905,
                reserved: 906,
                value: 907,
                class: 908,
            },
        },
    }
}

// By hand: a tally's types are of other crates, which derive no equality for them.
fn fields(tally: Tally) -> [u64; 11] {
    let sums = tally.sums;
    let counts = sums.counts;
    [
        u64::from(tally.wedge.start),
        u64::from(tally.wedge.end),
        sums.radials,
        sums.blanks,
        counts.below,
        counts.folded,
        counts.not_scanned,
        counts.unknown,
        counts.reserved,
        counts.value,
        counts.class,
    ]
}

// Says so where the lent record does not end as it should: with the tally, or after a refusal with its marks.
fn print_in(out: &impl Print, file: &[u8], cut: u32, t: u32, wedge: Wedge) -> io::Result<()> {
    let (number, tally) = match tallies::tally_of(file, cut, t, wedge) {
        Ok(tally) => {
            print_counted(out, tally)?;
            (0, tally)
        }
        Err(refusal) => {
            let n = refusal.number();
            print!(out; "no{n}")?;
            (n, marked())
        }
    };
    let lent = lent::tally_by(marked(), file, cut, t, wedge);
    if lent.number != number || fields(lent.tally) != fields(tally) {
        print!(out; " lent otherwise")?;
    }
    Ok(())
}

// In the full circle.
pub(crate) fn print_tally(out: &impl Print, file: &[u8], cut: u32, t: u32) -> io::Result<()> {
    print_in(out, file, cut, t, Wedge { start: 0, end: 0 })
}

// Wedges that start at, end at and straddle 0 and 12.34; a quarter, its rest, and next to it; equal ends; out of range.
const WEDGES: [(u32, u32); 20] = [
    (0, 0),
    (0, 1),
    (35999, 1),
    (35999, 0),
    (1, 0),
    (0, 35999),
    (1, 35999),
    (1233, 1234),
    (1234, 1235),
    (1234, 1233),
    (1235, 1233),
    (9000, 18000),
    (18000, 9000),
    (9001, 18001),
    (1234, 1234),
    (35999, 35999),
    (36000, 0),
    (0, 36000),
    (36000, 36000),
    (u32::MAX, 0),
];

pub(crate) fn print_wedges(out: &impl Print, file: &[u8], cut: u32, t: u32) -> io::Result<()> {
    print!(out; "wedges {cut} {t}:")?;
    for (start, end) in WEDGES {
        print!(out; " {start}-{end}=")?;
        print_in(out, file, cut, t, Wedge { start, end })?;
    }
    println!(out)
}
