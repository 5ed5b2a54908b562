// What takes the records of an input, one after the other.
ghost use Rattle.std.specs.Prelude.{ℕ, ◌<◌, List, length};
ghost use Rattle.intake.specs.Records.{longest_kept};

// A record that two pieces of the input share is kept up to this many bytes.
pub const LONGEST: usize = 129;

pub trait RecordSink {
    // takes s bytes t: t is s after it took the record with these bytes.
    ghost takes: { Self → List ℕ → Self → Type 0 };

    fn take(&mut self, bytes: &[u8])
        ensures takes { takes self.old bytes.now self.new };

    // Takes a record of more than LONGEST bytes, of which none is at hand: what it does goes for every such record.
    fn take_overlong(&mut self)
        ensures takes { (bs : List ℕ) → longest_kept < length bs → takes self.old bs self.new };
}
