// Prints document 01's worked numbers, computed by the library. The file stdout beside src/ has them as the paper prints them.
#![tactic(auto)]

mod run;
mod scene;
mod volumes;

use std::io;

fn main(rt: HostRuntime) -> io::Result<()> {
    let out = &mut io::writer(&rt);
    run::table_entries(out)?;
    run::sectors(out)?;
    run::stamps(out)?;
    scene::answers(out)?;
    run::sizes(out)?;
    volumes::full_disk(out)?;
    volumes::full_root(out)?;
    volumes::no_places(out)
}
