ghost use Rattle.std.specs.Prelude.{◌≡◌, ◌≢◌, ◌≤◌, ◌∷◌, None, OnOk, IfOk, IfSome, take, vec_len};
ghost use Rattle.php_base.specs.Counts.{counted_up, Rose};

use crate::shelf::{Shelf, ShelfFail};
use std::alloc::Global;
use std::io::{ErrorKind, Read};
use std::marker::Model;
use std::rt::Files;
use std::{fs, io};

/// The files of the host, for the program itself. A name is a path of the host. What the files
/// hold is not told.
///
/// `fetch` fails for a name that is missing, a folder or unreadable, and where a read fails.
#[derive(Drop)]
pub struct StdShelf<R: Files> {
    host: R,
    fetches: u64,
    faults: u64,
}

impl<R: Files> Model for StdShelf<R> {
    ghost use Rattle.php_base.specs.StdShelf.{ShelfCounts};

    ghost Value = { ShelfCounts };

    ghost view = { λ shelf. record { fetches = shelf.fetches; faults = shelf.faults } };
}

impl<R: Files> StdShelf<R> {
    /// A shelf over the host's files. `host` is the runtime that `main` has, or a reference to it.
    pub fn new(host: R) -> StdShelf<R>
        ensures { result ≡ record { fetches = 0; faults = 0 } }
    {
        StdShelf {
            host,
            fetches: 0,
            faults: 0,
        }
    }
}

impl<R: Files> Shelf for StdShelf<R> {
    ghost files = { λ _. None };

    ghost faults = { λ shelf. shelf.faults };

    ghost fetches = { λ shelf. shelf.fetches };

    fn fetch(&mut self, alloc: Global, name: &str, limit: usize) -> Result<Vec<u8>, ShelfFail>
        ensures counted { self.new.fetches ≡ counted_up self.old.fetches }
        ensures faults_stay { self.old.faults ≤ self.new.faults }
        ensures within { IfOk result (λ bytes. vec_len bytes ≤ limit) }
        ensures never_missing { result ≢ Err ShelfFail.Missing }
        ensures failed { result ≡ Err ShelfFail.Failed → Rose self.old.faults self.new.faults }
        ensures other { result ≢ Err ShelfFail.Failed → self.new.faults ≡ self.old.faults }
    {
        self.fetches = self.fetches.saturating_add(1);
        match read_file(&self.host, alloc, name, limit) {
            Ok(bytes) => Ok(bytes),
            Err(error) if error.kind() == ErrorKind::OutOfMemory => Err(ShelfFail::NoMemory),
            Err(_) => {
                self.faults = self.faults.saturating_add(1);
                Err(ShelfFail::Failed)
            }
        }
    }
}

/// The first `limit` bytes of a file of the host.
fn read_file<R: Files>(host: &R, alloc: Global, name: &str, limit: usize) -> io::Result<Vec<u8>>
    ensures within { IfOk result (λ bytes. vec_len bytes ≤ limit) }
{
    let mut file = fs::open(host, name)?;
    read_first(&mut file, alloc, limit)
}

/// The first `limit` bytes that a reader gives, and all of them where they are fewer. It takes no
/// more from the reader.
fn read_first<F: Read>(file: &mut F, alloc: Global, limit: usize) -> io::Result<Vec<u8>>
    ensures within { IfOk result (λ bytes. vec_len bytes ≤ limit) }
    ensures given { IfOk result (λ bytes. IfSome (F.remaining file.old) (λ left. bytes.items ≡ take limit left)) }
{
    let mut bytes = Vec::new(alloc);
    let mut piece = [0u8; 4096];
    for _ in 0..u64::MAX {
        let room = piece.len().min(limit - bytes.len());
        match file.read(&mut piece[..room]) {
            Ok(0) => return Ok(bytes),
            Ok(n) => bytes.extend_from_slice(&piece[..n])?,
            Err(error) => {
                if error.kind() != ErrorKind::Interrupted {
                    return Err(error);
                }
            }
        }
    }
    Err(io::Error::from(ErrorKind::Interrupted))
}

#[cfg(test)]
mod tests {
    use super::*;
    use std::test::Fail;

    /// A reader that is interrupted, gives two bytes, and breaks.
    #[derive(Drop)]
    struct Breaks {
        reads: u32,
    }

    impl Read for Breaks {
        fn read(&mut self, piece: &mut [u8]) -> io::Result<usize> {
            self.reads = self.reads.saturating_add(1);
            match self.reads {
                1 => Err(io::Error::from(ErrorKind::Interrupted)),
                2 => Ok(piece.len().min(2)),
                _ => Err(io::Error::from(ErrorKind::BrokenPipe)),
            }
        }
    }

    #[test]
    fn a_read_that_fails_midway_fails_the_whole(rt: HostRuntime) -> Result<(), Fail> {
        let mut file = Breaks { reads: 0 };
        let failed = read_first(&mut file, rt.alloc(), 5);
        assert_eq!(rt;
            failed.err().map(|error| error.kind()),
            Some(ErrorKind::BrokenPipe)
        );
        assert_eq!(rt; file.reads, 3);
        Ok(())
    }
}
