//! The benchmark: the jobs that users of shform wait for, on inputs that a seed makes.
//!
//!     shbench JOB SEED         does one job and prints a digest of all its results
//!     shbench all SEED         tries each job on few and small inputs
//!
//! It prints no times: `bench/run` takes those. Start with `does`, which tells the jobs: `batch` checks and prints scripts, `sessions`
//! types in open ones and asks for long answers, `awkward` does what is awkward. `maker` makes the scripts from the lines of `templates`.
#![tactic(auto)]

mod awkward;
mod batch;
mod dice;
mod digest;
mod load;
mod maker;
mod requests;
mod sessions;
mod templates;

use load::{Load, Scale};
use std::alloc::AllocError;
use std::env;
use std::process::ExitCode;

/// The jobs, by their names.
const JOBS: [&str; 6] = [
    "check",
    "print",
    "keys",
    "answers",
    "awkward-keys",
    "awkward-scripts",
];

/// Does a job.
fn does(job: &str, load: &mut Load) -> Result<(), AllocError> {
    match job {
        "check" => batch::check_all(load),
        "print" => batch::print_all(load),
        "keys" => sessions::keys(load),
        "answers" => sessions::answers(load),
        "awkward-keys" => awkward::keys(load),
        _ => awkward::scripts(load),
    }
}

/// Does a job and prints the digest of its results. Answers whether it could.
fn report(rt: &HostRuntime, job: &str, seed: u64, scale: Scale) -> bool {
    let Ok(mut load) = Load::new(rt.alloc(), seed, scale) else {
        return false;
    };
    if does(job, &mut load).is_err() {
        return false;
    }
    let sum = load.digest.sum();
    println!(rt; "{job} {sum:016x}").is_ok()
}

/// Does what the words ask for. Answers whether it could.
fn run(rt: &HostRuntime, job: &str, seed: u64) -> bool {
    if job != "all" {
        return JOBS.contains(&job) && report(rt, job, seed, Scale::Whole);
    }
    for job in JOBS {
        if !report(rt, job, seed, Scale::Tried) {
            return false;
        }
    }
    true
}

/// The job and the seed of the command line.
fn asked(rt: &HostRuntime) -> Option<bool> {
    let mut words = env::args(rt).ok()?.skip(1);
    let job = words.next()?;
    let seed = words.next()?;
    let seed = seed.as_str().parse::<u64>().ok()?;
    Some(run(rt, job.as_str(), seed))
}

fn main(rt: HostRuntime) -> ExitCode {
    match asked(&rt) {
        Some(true) => ExitCode::from(0),
        Some(false) => ExitCode::from(1),
        None => {
            let _ = rt.eprint("usage: shbench JOB SEED\n");
            ExitCode::from(2)
        }
    }
}
