// The command line program: the words, the files and the streams of the host.
#![tactic(auto)]

use php_base::{StdShelf, StdSink, put_all};
use php_run::{Kind, run_php};
use std::alloc::Global;
use std::env::Env;
use std::process::ExitCode;
use std::{env, io};

/// The words after the program's name. Words that are not UTF-8 are no words of the command, so
/// they count as none.
fn words(rt: &(impl Env + Alloc<A = Global>)) -> io::Result<Vec<String>> {
    let mut words = Vec::new(rt.alloc());
    match env::args(rt) {
        Ok(args) => {
            for word in args.skip(1) {
                words.push(word)?;
            }
        }
        Err(error) if error.kind() == io::ErrorKind::OutOfMemory => return Err(error),
        Err(_) => {}
    }
    Ok(words)
}

fn main(rt: HostRuntime) -> ExitCode {
    let mut shelf = StdShelf::new(&rt);
    let mut out = StdSink::new(rt.stdout());
    let mut err = StdSink::new(rt.stderr());
    let status = match words(&rt) {
        Ok(words) => run_php(rt.alloc(), &words, &mut shelf, &mut out, &mut err).status,
        Err(_) => {
            let _ = put_all(&mut err, b"phprun: out of memory\n");
            Kind::NoMemory.status()
        }
    };
    ExitCode::from(status)
}
