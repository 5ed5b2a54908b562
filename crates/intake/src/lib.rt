// Input cut into records, in fixed memory, for any sink. The input comes in pieces, and a line feed ends a record.
#![tactic(auto)]

pub mod lines;
pub mod sink;

ghost use Rattle.std.specs.Prelude.{◌≡◌, ℕ, List, [], ◌++◌};
ghost use Rattle.intake.specs.Records.{records_of};
ghost use Rattle.intake.specs.Stream.{holds_nothing, Holds, Fed, TakesAll};

use arrayvec::ArrayVec;
use lines::split_line;
use sink::{LONGEST, RecordSink};

// Hands the records of an input to a sink. A record that lies in one piece is handed on where it lies.
#[derive(Drop)]
pub struct Intake<S> {
    sink: S,
    // the bytes of the record that is not yet ended, or none where it has more than LONGEST
    held: Option<ArrayVec<u8, LONGEST>>,
}

impl<S: RecordSink> Intake<S> {
    // An intake that was fed nothing yet.
    pub fn new(sink: S) -> Intake<S>
        ensures { Fed S.RecordSink sink [] result }
    {
        Intake {
            sink,
            held: Some(ArrayVec::new()),
        }
    }

    // Takes the next piece of the input.
    pub fn feed(&mut self, piece: &[u8])
        ensures fed { (start : S) (xs : List ℕ) → Fed S.RecordSink start xs self.old → Fed S.RecordSink start (xs ++ piece.now) self.new }
    {
        let mut rest = piece;
        while let Some((line, after)) = split_line(rest) {
            self.end_line(line);
            rest = after;
        }
        self.hold(rest);
    }

    // Ends the input: a rest that no line feed ends is a record too.
    pub fn finish(mut self) -> S
        ensures taken { (start : S) (xs : List ℕ) → Fed S.RecordSink start xs self → TakesAll S.RecordSink start (records_of xs) result }
    {
        self.end_rest();
        self.sink
    }

    // Hands on the rest that no line feed ends, unless it is empty.
    fn end_rest(&mut self)
        ensures taken { (start : S) (xs : List ℕ) → Fed S.RecordSink start xs self.old → TakesAll S.RecordSink start (records_of xs) self.new.sink }
    {
        if !self.holds_nothing() {
            self.end_held();
        }
    }

    // Whether the record that is not yet ended has no byte so far.
    fn holds_nothing(&self) -> bool
        ensures { result ≡ holds_nothing self.now }
    {
        self.held.as_ref().is_some_and(|held| held.is_empty())
    }

    // Ends the record with these bytes.
    fn end_line(&mut self, bytes: &[u8])
        ensures taken { (p : List ℕ) → Holds self.old p → Holds self.new [] × S.RecordSink.takes self.old.sink (p ++ bytes.now) self.new.sink }
    {
        if self.holds_nothing() {
            self.sink.take(bytes);
        } else {
            self.hold(bytes);
            self.end_held();
        }
    }

    // Adds bytes to the record that is not yet ended, as far as they are kept.
    fn hold(&mut self, bytes: &[u8])
        ensures same { self.new.sink ≡ self.old.sink }
        ensures held { (p : List ℕ) → Holds self.old p → Holds self.new (p ++ bytes.now) }
    {
        if let Some(held) = &mut self.held
            && held.try_extend_from_slice(bytes).is_err()
        {
            self.held = None;
        }
    }

    // Hands on the record that is held.
    fn end_held(&mut self)
        ensures taken { (p : List ℕ) → Holds self.old p → Holds self.new [] × S.RecordSink.takes self.old.sink p self.new.sink }
    {
        match self.held.replace(ArrayVec::new()) {
            Some(record) => self.sink.take(record.as_slice()),
            None => self.sink.take_overlong(),
        }
    }
}
