//! What is printed of a measure.
use crate::lap::Lap;
use std::{env, io};

/// The best rounds of a measure at n entries, of the structure that is measured and of another one.
#[derive(Clone, Copy)]
pub struct Row<'a> {
    pub n: usize,
    pub measure: &'a str,
    pub name: &'a str,
    pub own: Lap,
    pub other: Lap,
    pub other_name: &'a str,
}

/// Prints a measure at n entries that stands beside none: its sum to standard output, and its time an operation to standard error.
pub fn print_alone(
    rt: &HostRuntime,
    n: usize,
    measure: &str,
    lap: Lap,
    operations: usize,
) -> io::Result<()> {
    let sum = lap.sum;
    println!(rt; "{n} {measure}: {sum}")?;
    let (whole, tenth) = in_tenths(per_operation(lap, operations));
    eprintln!(rt; "{n} {measure}: {whole}.{tenth}")
}

/// Prints the sums to standard output, and the times to standard error; or, if `--csv` is an argument, the times to standard output.
pub fn print(rt: &HostRuntime, row: Row) -> io::Result<()> {
    if env::args(rt)?.any(|word| word.as_str() == "--csv") {
        return print_values(rt, row);
    }
    print_table(rt, row)
}

// Prints the times as comma-separated values, a line for each structure. A measure may have commas, and stands in quotation marks.
fn print_values(rt: &HostRuntime, row: Row) -> io::Result<()> {
    let (n, measure) = (row.n, row.measure);
    for (name, lap) in &[(row.name, row.own), (row.other_name, row.other)] {
        let (whole, tenth) = in_tenths(per_operation(*lap, n));
        println!(rt; "{n},\"{measure}\",{name},{whole}.{tenth}")?;
    }
    Ok(())
}

// Prints the sums to standard output, and the times to standard error.
fn print_table(rt: &HostRuntime, row: Row) -> io::Result<()> {
    let (n, measure) = (row.n, row.measure);
    let (name, other_name) = (row.name, row.other_name);
    let (own_sum, other_sum) = (row.own.sum, row.other.sum);
    println!(rt; "{n} {measure}: {name} {own_sum} {other_name} {other_sum}")?;
    let (own, own_tenth) = in_tenths(per_operation(row.own, n));
    let (other, other_tenth) = in_tenths(per_operation(row.other, n));
    let (ratio, hundredths) = ratio(row.own, row.other);
    eprintln!(rt;
        "{n:>8} {name:<14} {measure:<22} {own:>5}.{own_tenth} {other:>5}.{other_tenth} {ratio:>3}.{hundredths:02} {other_name}"
    )
}

// Tenths of a nanosecond an operation.
fn per_operation(lap: Lap, n: usize) -> u128 {
    lap.nanoseconds.saturating_mul(10) / (n as u128).max(1)
}

// A number of tenths as whole ones and a digit.
fn in_tenths(tenths: u128) -> (u128, u128) {
    (tenths / 10, tenths % 10)
}

// How many times as long the first took, as whole ones and hundredths.
fn ratio(lap: Lap, other: Lap) -> (u128, u128) {
    let hundredths = lap.nanoseconds.saturating_mul(100) / other.nanoseconds.max(1);
    (hundredths / 100, hundredths % 100)
}
