//! The outside: shelves that give files, and sinks that take bytes.
ghost use Rattle.std.specs.Prelude.{◌≡◌, ◌<◌, ◌≤◌, ℕ, List, [], ◌∷◌, Option, IfOk, IfSome, OnOk, OnErr, length, take, option_map};
ghost use Rattle.bridge_base.specs.Outside.{HasCause, Files, file, Gains, GainsFront, Gives, Begins};

/// A shelf or a sink failed.
#[derive(Clone, Copy, Debug, PartialEq, Eq)]
pub struct Failed;

/// Files by name, of which one at a time is read, in pieces.
///
/// A shelf has four meanings. `told` is its files, or nothing of a shelf that doesn't tell them; no call
/// changes it. `left` is what remains of the file begun, where the shelf tells: nothing remains before the
/// first `begin` and after one that failed. `faults` counts the failures and never falls.
/// `begun` is the names that were begun so far, in order, each as often as it was, where the shelf tells them;
/// it may stop telling them, as where it has no memory for a further one, and then tells them no more.
pub trait Shelf {
    ghost told: { Self → Option Files };

    ghost left: { Self → Option (List ℕ) };

    ghost faults: { Self → ℕ };

    ghost begun: { Self → Option (List (List ℕ)) };

    /// Begins the file of that name at its first byte. A shelf that tells begins an empty file where it has
    /// none of that name, or fails.
    fn begin(&mut self, name: &str) -> Result<(), Failed>
        ensures told { told self.new ≡ told self.old }
        ensures ok { OnOk result (left self.new ≡ option_map (λ files. file files name.now) (told self.old)) }
        ensures err { OnErr result (left self.new ≡ option_map (λ _. []) (told self.old)) }
        ensures begun { Begins (begun self.old) (name.now ∷ []) (begun self.new) }
        ensures cause { HasCause (faults self.old) (faults self.new) result };

    /// Puts the next bytes of the file at the front of the buffer, and gives their count. None for a buffer
    /// with room is the end of the file.
    fn read(&mut self, buf: &mut [u8]) -> Result<usize, Failed>
        ensures told { told self.new ≡ told self.old }
        ensures bound { IfOk result (λ count. count ≤ length buf.new) }
        ensures bytes { IfOk result (λ count. Gives (left self.old) (take count buf.new) (left self.new)) }
        ensures end { result ≡ Ok 0 → 0 < length buf.new → IfSome (left self.old) (λ rest. rest ≡ []) }
        ensures err { OnErr result (left self.new ≡ left self.old) }
        ensures begun { begun self.new ≡ begun self.old }
        ensures cause { HasCause (faults self.old) (faults self.new) result };
}

/// What bytes are written to.
///
/// A sink has two meanings. `got` is all that was written to it, or nothing of a sink that doesn't tell.
/// `faults` counts the failures and never falls.
pub trait Sink {
    ghost got: { Self → Option (List ℕ) };

    ghost faults: { Self → ℕ };

    /// Writes a prefix of the piece, of at least one byte where it has one, and gives its length.
    fn write(&mut self, piece: &[u8]) -> Result<usize, Failed>
        ensures bound { IfOk result (λ count. count ≤ length piece.now) }
        ensures moves { IfOk result (λ count. 0 < length piece.now → 0 < count) }
        ensures bytes { IfOk result (λ count. Gains (got self.old) (take count piece.now) (got self.new)) }
        ensures err { OnErr result (got self.new ≡ got self.old) }
        ensures cause { HasCause (faults self.old) (faults self.new) result };
}

/// Writes the whole piece, or a prefix of it where the sink fails.
pub fn write_all<S: Sink>(sink: &mut S, piece: &[u8]) -> Result<(), Failed>
    ensures ok { OnOk result (Gains (S.got sink.old) piece.now (S.got sink.new)) }
    ensures err { OnErr result (GainsFront (S.got sink.old) piece.now (S.got sink.new)) }
    ensures cause { HasCause (S.faults sink.old) (S.faults sink.new) result }
{
    let mut written = 0;
    while written < piece.len() {
        written += sink.write(&piece[written..])?;
    }
    Ok(())
}
