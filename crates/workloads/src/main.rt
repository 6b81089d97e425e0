//! `workloads NAME COUNT SEED` does the work of the workload with this name, or of all, on COUNT inputs that it makes
//! from the number SEED, and prints a digest of all results. `bench/run` times it.
#![tactic(auto)]

mod awkward;
mod bench;
mod digest;
mod mail;
mod pages;
mod random;
mod svg;
mod texts;
mod types;

use bench::Bench;
use std::alloc::{AllocError, Global};
use std::env;
use std::process::ExitCode;

/// Runs each workload.
fn run_all(bench: &mut Bench, count: u64) -> Result<(), AllocError> {
    pages::run(bench, count)?;
    svg::run(bench, count)?;
    texts::run(bench, count)?;
    types::run(bench, count)?;
    mail::run(bench, count)?;
    awkward::run(bench, count)
}

/// Runs a workload, or all of them, and returns the digest of its results, or None if there is no workload with this
/// name.
fn run(alloc: Global, name: &str, count: u64, seed: u64) -> Result<Option<u64>, AllocError> {
    let mut bench = Bench::new(alloc, seed);
    match name {
        "pages" => pages::run(&mut bench, count)?,
        "svg" => svg::run(&mut bench, count)?,
        "texts" => texts::run(&mut bench, count)?,
        "types" => types::run(&mut bench, count)?,
        "mail" => mail::run(&mut bench, count)?,
        "awkward" => awkward::run(&mut bench, count)?,
        "all" => run_all(&mut bench, count)?,
        _ => return Ok(None),
    }
    Ok(Some(bench.digest.finish()))
}

fn main(rt: HostRuntime) -> ExitCode {
    let Ok(mut words) = env::args(&rt) else {
        return ExitCode::from(3);
    };
    words.next();
    let (Some(name), Some(count), Some(seed)) = (words.next(), words.next(), words.next()) else {
        return ExitCode::from(2);
    };
    let (Ok(count), Ok(seed)) = (count.as_str().parse::<u64>(), seed.as_str().parse::<u64>()) else {
        return ExitCode::from(2);
    };
    match run(rt.alloc(), name.as_str(), count, seed) {
        Ok(Some(digest)) => match println!(rt; "{digest:016x}") {
            Ok(()) => ExitCode::SUCCESS,
            Err(_) => ExitCode::from(3),
        },
        Ok(None) => ExitCode::from(2),
        Err(_) => ExitCode::from(3),
    }
}
