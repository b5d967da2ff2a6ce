#![tactic(auto)]

use std::io::Result;

fn main(rt: HostRuntime) -> Result<()> {
    listing::run(rt)
}
