ghost use Rattle.std.specs.Prelude.{◌≡◌, ℕ, ◌<◌, ◌≤◌, List, [], Option, OnOk, OnErr, IfOk, IsErr, take, length};
ghost use Rattle.php_base.specs.Counts.{Rose};
ghost use Rattle.php_base.specs.Written.{GrewBy, GrewByPart};

/// A sink failed. Its count of faults rose.
#[derive(Clone, Copy, Debug, PartialEq, Eq)]
pub struct Failed;

/// Where bytes go. A sink may tell what was written, or tell nothing of it: a stream of the host
/// tells nothing.
pub trait Sink {
    /// The bytes written so far, where the sink tells them.
    ghost written: { Self → Option (List ℕ) };

    /// How often the sink failed. The count never falls, and may stand still at its greatest value.
    ghost faults: { Self → ℕ };

    /// Writes bytes from the front of the piece, at least one unless the piece is empty, and answers
    /// how many.
    fn write(&mut self, piece: &[u8]) -> Result<usize, Failed>
        ensures within { IfOk result (λ n. n ≤ length piece.now) }
        ensures some { IfOk result (λ n. 0 < length piece.now → 0 < n) }
        ensures empty { length piece.now ≡ 0 → result ≡ Ok 0 }
        ensures ok { IfOk result (λ n. GrewBy (written self.old) (written self.new) (take n piece.now)) }
        ensures no_fault { OnOk result (faults self.new ≡ faults self.old) }

        ensures unchanged { OnErr result (written self.new ≡ written self.old) }
        ensures fault { OnErr result (Rose (faults self.old) (faults self.new)) }
        ensures faults_stay { faults self.old ≤ faults self.new };
}

/// Writes all of the bytes. After `Failed` the sink has taken fewer, from the front.
pub fn put_all<K: Sink>(sink: &mut K, bytes: &[u8]) -> Result<(), Failed>
    ensures ok { OnOk result (GrewBy (K.written sink.old) (K.written sink.new) bytes.now) }
    ensures no_fault { OnOk result (K.faults sink.new ≡ K.faults sink.old) }

    ensures part { OnErr result (GrewByPart (K.written sink.old) (K.written sink.new) bytes.now) }
    ensures fault { OnErr result (Rose (K.faults sink.old) (K.faults sink.new)) }
    ensures faults_stay { K.faults sink.old ≤ K.faults sink.new }
{
    let mut done = 0;
    while done < bytes.len() {
        done += sink.write(&bytes[done..])?;
    }
    Ok(())
}
