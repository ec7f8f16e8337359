//! Times parts of the library on a text: `rnix_bench FILE PART TURNS` prints what one turn counted, and the fewest microseconds that a turn took.
#![tactic(auto)]

mod measured;
mod walking;

use measured::Part;
use std::{env, fs, io};

fn main(rt: HostRuntime) -> io::Result<()> {
    let mut args = env::args(&rt)?;
    let _program = args.next();
    match (args.next(), args.next(), args.next()) {
        (Some(name), Some(part), Some(turns)) => {
            let text = fs::read_to_string(&rt, name.as_str())?;
            match Part::named(part.as_str()) {
                Some(part) => measured::report(
                    &rt,
                    part,
                    text.as_str(),
                    turns.as_str().parse().unwrap_or(1),
                ),
                None => println!(rt; "rnix_bench: no part of this name"),
            }
        }
        _ => println!(rt; "rnix_bench FILE tokens|parse|walk|ranges|parents|offsets|print TURNS"),
    }
}
