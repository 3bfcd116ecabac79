// A source and a sink of bytes.
ghost use Rattle.std.specs.{Prelude.{◌≡◌, ◌<◌, ◌≤◌, List, ℕ, Option, length, take, IfOk, OnOk, OnErr}, Io.KnownBytes.{Appends, Consumes, IsAtEnd, Keeps}};
ghost use Rattle.swreq_text.specs.Faults.{HasRisen};

/// A read or a write failed. The stream's count of faults has risen.
#[derive(Clone, Copy, Debug, PartialEq, Eq)]
pub struct IoFailed;

/// Where bytes come from.
pub trait Source {
    /// The bytes still to come, where the source tells them. One that tells them tells them for good.
    ghost left: { Self → Option (List ℕ) };

    /// How often a read has failed, up to the greatest number of 64 bits. It never falls.
    ghost faults: { Self → ℕ };

    /// Reads the next bytes into the front of `buf`, and says how many.
    ///
    /// 0 for a buffer that is not empty means that nothing is left.
    fn read(&mut self, buf: &mut [u8]) -> Result<usize, IoFailed>
        ensures count { IfOk result (λ n. n ≤ length buf.new) }
        ensures next { IfOk result
            (λ n. Consumes (left self.old) (left self.new) (take n buf.new)) }
        ensures end { result ≡ Ok 0 → 0 < length buf.new → IsAtEnd (left self.new) }
        ensures kept { OnErr result (Keeps (left self.old) (left self.new)) }
        ensures uncounted { OnOk result (faults self.new ≡ faults self.old) }
        ensures cause { OnErr result (HasRisen (faults self.old) (faults self.new)) }
        ensures steady { faults self.old ≤ faults self.new };
}

/// Where bytes go.
pub trait Sink {
    /// The bytes taken so far, where the sink tells them. One that tells them tells them for good.
    ghost taken: { Self → Option (List ℕ) };

    /// How often a write has failed, up to the greatest number of 64 bits. It never falls.
    ghost faults: { Self → ℕ };

    /// Takes bytes from the front of `piece`, and says how many: none only of an empty one.
    fn write(&mut self, piece: &[u8]) -> Result<usize, IoFailed>
        ensures count { IfOk result (λ n. n ≤ length piece.now) }
        ensures some { result ≡ Ok 0 → length piece.now ≡ 0 }
        ensures appended { IfOk result
            (λ n. Appends (taken self.old) (taken self.new) (take n piece.now)) }
        ensures kept { OnErr result (Keeps (taken self.old) (taken self.new)) }
        ensures uncounted { OnOk result (faults self.new ≡ faults self.old) }
        ensures cause { OnErr result (HasRisen (faults self.old) (faults self.new)) }
        ensures steady { faults self.old ≤ faults self.new };
}
