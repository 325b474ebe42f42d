// The cards that its arguments name, each as the listing program prints it; and the listing into a row that is lent.

#![tactic(auto)]

mod rows;

use std::env::{Env, FillError};
use std::rt::Files;
use std::{fs, io, str};

// A name that is not UTF-8 opens no file.
fn open<R: Files>(rt: &R, path: &[u8]) -> Option<R::File> {
    let name = str::from_utf8(path).ok()?;
    fs::open(rt, name).ok()
}

fn list_file<R: Print + Files>(rt: &R, path: &[u8]) -> io::Result<()> {
    print!(rt; "-- ")?;
    rt.write_all(path)?;
    println!(rt)?;
    let Some(mut file) = open(rt, path) else {
        return println!(rt; "cannot be read");
    };
    lister::run_on(rt, &mut file)
}

// Every argument after the program's name. One that is longer than 64 bytes names no file.
fn list_arguments(rt: &(impl Print + Files + Env)) -> io::Result<()> {
    for i in 1..usize::MAX {
        let mut path = [0u8; 64];
        let filled = rt.arg(i, &mut path);
        if let Err(FillError::NotPresent) = filled {
            break;
        }
        list_file(rt, &path[..filled.unwrap_or(0)])?;
    }
    Ok(())
}

fn main(rt: HostRuntime) -> io::Result<()> {
    list_arguments(&rt)?;
    rows::run(&rt)
}
