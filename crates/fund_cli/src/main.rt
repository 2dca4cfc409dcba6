//! The program: it makes the files, the standard output and the job file of the machine, and does the command of its words.
#![tactic(auto)]

use fund_outside::Keeper;
use fund_shelf::{FileShelf, Shelf, Sink, StdSink};
use fund_top::{Status, run};
use keep_sqlite::SqliteKeeper;
use std::alloc::Global;
use std::env;
use std::io::ErrorKind;
use std::process::ExitCode;

/// The words of the command line, without the program's name; or how the program ends where the system doesn't
/// give them as text, or there is no memory for them.
fn words(rt: &HostRuntime) -> Result<Vec<String>, Status> {
    let args = match env::args(rt) {
        Ok(args) => args,
        Err(error) if error.kind() == ErrorKind::OutOfMemory => return Err(Status::Memory),
        Err(_) => return Err(Status::Usage),
    };
    let mut words = Vec::new(rt.alloc());
    for word in args.skip(1) {
        if words.push(word).is_err() {
            return Err(Status::Memory);
        }
    }
    Ok(words)
}

/// Does a command; its status as a number.
fn ended<H: Shelf, O: Sink, K: Keeper>(
    alloc: Global,
    words: &Vec<String>,
    shelf: &mut H,
    out: &mut O,
    keeper: &mut K,
) -> u8 {
    run(alloc, words, shelf, out, keeper).code()
}

fn main(rt: HostRuntime) -> ExitCode {
    let code = match words(&rt) {
        Ok(words) => {
            let mut shelf = FileShelf::new(&rt);
            let mut out = StdSink::new(&rt);
            let mut keeper = SqliteKeeper::new(&rt);
            ended(rt.alloc(), &words, &mut shelf, &mut out, &mut keeper)
        }
        Err(status) => status.code(),
    };
    ExitCode::from(code)
}
