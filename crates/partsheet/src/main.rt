// Opens a part text from standard input and prints its registers.
#![tactic(auto)]

use sheet::sheet_of;
use std::io::Read;

fn run(rt: &HostRuntime) -> anyhow::Result<()> {
    let mut text = Vec::new(rt.alloc());
    rt.stdin().read_to_end(&mut text)?;
    let sheet = sheet_of(rt.alloc(), text.as_slice())?;
    print!(rt; "{sheet}")?;
    Ok(())
}

fn main(rt: HostRuntime) -> anyhow::Result<()> {
    run(&rt)
}
