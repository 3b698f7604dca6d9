// A reader over the lent file: it keeps a position, and yields one event record after the other from there on, as far as the file goes.
#![tactic(auto)]

ghost use Rattle.std.specs.Prelude.{◌≡◌, ◌+◌, ◌≤◌, length, cond, is_some, ⊤};
ghost use Rattle.std.specs.Iterator.{YieldsFirst, item_count, MakesProgress};
ghost use Rattle.format.specs.Header.{first_event};
ghost use Rattle.reader.specs.Reader.{ahead};

use format::header::first_event;
use layout::EventRecord;
use layout::records::event_at;

#[derive(Clone, Copy, Drop)]
pub struct Reader<'a> {
    pub src: &'a [u8],
    pub at: usize,
}

impl<'a> Reader<'a> {
    // A reader at the first event of a file.
    pub fn new(src: &'a [u8]) -> Reader<'a>
        requires { 16 ≤ length src.now }
        ensures { (result.src ≡ src.entry) × (result.at ≡ first_event src.now) }
    {
        Reader {
            src,
            at: first_event(src),
        }
    }
}

impl<'a> Iterator for Reader<'a> {
    type Item = EventRecord;

    ghost next_gives = { YieldsFirst (λ r. ahead r.src.now r.at) };

    ghost remaining = { item_count (λ r. ahead r.src.now r.at) };

    // It goes on by one record, or, where there is none, stays where it is.
    fn next(&mut self) -> Option<EventRecord>
        ensures steps { YieldsFirst (λ r. ahead r.src.now r.at) self.old result self.new }
        ensures goes { MakesProgress (λ _. ⊤) (item_count (λ r. ahead r.src.now r.at)) self.old result self.new }
        ensures stands { (self.new.src ≡ self.old.src) × (self.new.at ≡ cond (is_some result) (self.old.at + 24) self.old.at) }
    {
        let record = self.src.get(self.at..)?.first_chunk::<24>()?;
        self.at += 24;
        Some(event_at(record, 0))
    }
}

// Where a new reader stands.
pub fn first(file: &[u8]) -> usize
    requires { 16 ≤ length file.now }
    ensures { result ≡ first_event file.now }
{
    Reader::new(file).at
}
