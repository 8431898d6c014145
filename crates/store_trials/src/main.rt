// Drives each store and a naive list of rows through the same long sequence of calls, and prints how many answers agreed.
#![tactic(auto)]

use hashed::store::HashedStore;
use sorted::table::SortedStore;
use stores::store::Store;
use trial::Trial;

mod draws;
mod naive;
mod trial;

// How many calls each store answers.
const CALLS: u32 = 30_000;

fn report<S: Store + Drop>(rt: &HostRuntime, name: &str, seed: u32) -> anyhow::Result<()> {
    let mut trial: Trial<S> = Trial::new(rt.alloc(), seed);
    for _ in 0..CALLS {
        trial.step()?;
    }
    let agreed = trial.agreed;
    let refused = trial.refused;
    let fullest = trial.fullest;
    println!(rt;
        "{name}: {CALLS} calls, {agreed} answers agreed, {refused} refusals, at most {fullest} rows held"
    )?;
    Ok(())
}

fn main(rt: HostRuntime) -> anyhow::Result<()> {
    report::<SortedStore>(&rt, "sorted", 2_463_534_242)?;
    report::<HashedStore>(&rt, "hashed", 2_463_534_242)
}
