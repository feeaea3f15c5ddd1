// What a program that plays a script prints besides: help, titles, faults.
// No contract can say what is printed through the runtime: the outputs of both programs test it.
use anyhow::anyhow;
use fault::Error;
use std::env;

// Is the program only asked what it is? Then that is printed.
pub fn is_asked(rt: &HostRuntime, help: &str) -> anyhow::Result<bool> {
    for arg in env::args(rt)?.skip(1) {
        if arg.as_str() == "--help" {
            println!(rt; "{help}")?;
            return Ok(true);
        }
    }
    Ok(false)
}

// What stands behind the word `title`.
pub fn print_title(rt: &HostRuntime, line: &str) -> anyhow::Result<()> {
    let (_, text) = line.split_once("title").unwrap_or(("", ""));
    println!(rt; "=={text} ==")?;
    Ok(())
}

// Faults are answered, want of memory ends the program.
pub fn answer(rt: &HostRuntime, number: u64, error: Error) -> anyhow::Result<()> {
    match error {
        Error::Of(fault) => {
            println!(rt; "  line {number}: fault {}: {fault}", u8::from(fault))?;
            Ok(())
        }
        Error::Memory => Err(anyhow!("no memory")),
    }
}
