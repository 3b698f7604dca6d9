// Document 01's bench readings that are not proved as theorems, and the maker's own table, read by the engine's rules.
//
// What `stdout` holds, and where it comes from: the first two lines are document 01's, "Readings on the bench". In a row of
// the table the first two figures are source document 000's Table 3-1, typed from it below (mV, and ppm as pmol/mol). The
// third is ours and the fourth its difference from the document's; both were computed by the independent implementation in
// tests/, which works from document 01 alone. Half of the document's last digit is 50,000: no row differs by more.
#![tactic(auto)]

ghost use Rattle.std.specs.Prelude.{◌≤◌, nat_abs, IfSome};

use curve::{Air, OutOfRange, Sheet};
use std::io;

// PPM of Table 3-1 in tenths, from 1,600 mV on in steps of 20 mV.
const PPM_TENTHS: [u16; 72] = [
    2923, 2969, 3015, 3061, 3108, 3154, 3201, 3249, 3296, 3344, 3392, 3440, 3489, 3537, 3586, 3636,
    3685, 3735, 3785, 3836, 3886, 3937, 3988, 4040, 4091, 4143, 4196, 4248, 4301, 4354, 4407, 4461,
    4515, 4569, 4623, 4678, 4733, 4788, 4844, 4900, 4956, 5012, 5069, 5126, 5183, 5240, 5298, 5356,
    5415, 5474, 5532, 5592, 5651, 5711, 5771, 5832, 5893, 5954, 6015, 6077, 6139, 6201, 6263, 6326,
    6389, 6453, 6517, 6581, 6645, 6710, 6775, 6840,
];

fn main(rt: HostRuntime) -> io::Result<()> {
    bench_reading(&rt)?;
    bench_sheet(&rt)?;
    println!(rt; "mV document ours difference")?;
    for (mv, tenths) in (1600..).step_by(20).zip(PPM_TENTHS) {
        row(&rt, mv, tenths)?;
    }
    Ok(())
}

// Document 01's bench sheet.
const BENCH: Sheet = Sheet {
    a1: 150000000,
    a2: 5000000,
    a3: 5000000,
    t0: 29815,
    k: 200000000,
};

// V 70,000,000 on the bench sheet: c would be 3,010,000,000.
fn bench_reading(rt: &impl Print) -> io::Result<()> {
    let air = Air {
        p: 101300,
        t: 29815,
        e: 0,
    };
    match curve::absolute(BENCH, 70000000, air) {
        Ok(c) => println!(rt; "V 70000000: {c}"),
        Err(OutOfRange::BelowZero) => println!(rt; "V 70000000: refusal 7"),
        Err(OutOfRange::OverRange) => println!(rt; "V 70000000: refusal 8"),
    }
}

// A sheet with A1 0 is outside its limits.
fn bench_sheet(rt: &impl Print) -> io::Result<()> {
    if curve::limits::sheet_within(Sheet { a1: 0, ..BENCH }) {
        println!(rt; "A1 0: accepted")
    } else {
        println!(rt; "A1 0: refusal 2")
    }
}

// A row of the table. No signal in it is refused.
fn row(rt: &impl Print, mv: u16, tenths: u16) -> io::Result<()> {
    let document = i64::from(tenths) * 100000;
    match table_reading(i64::from(mv) * 10000) {
        Some(ours) => println!(rt; "{mv} {document} {ours} {}", ours - document),
        None => println!(rt; "{mv} {document} refused"),
    }
}

// The wet value of a signal on the table's sheet: a1 0.1420, a2 2.258E-05, a3 1.787E-09, K 19130 mV, T0 40.2 degrees; P 101,300, T = T0, e 0.
fn table_reading(v: i64) -> Option<i64>
    ensures { IfSome result (λ c. nat_abs c ≤ 3000000000) }
{
    let sheet = Sheet {
        a1: 142000000,
        a2: 22580000,
        a3: 1787000,
        t0: 31335,
        k: 191300000,
    };
    let air = Air {
        p: 101300,
        t: 31335,
        e: 0,
    };
    match curve::absolute(sheet, v, air) {
        Ok(c) => Some(c),
        Err(_) => None,
    }
}
