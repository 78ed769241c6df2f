// The words of a table, and of how many places its line made it.
use table::LinkedTable;

// Room for tables of 16 places.
const WORDS: usize = LinkedTable::HEADER_WORDS + LinkedTable::PLACE_WORDS * 16;

#[derive(Clone, Copy)]
pub struct Table {
    pub words: [u32; WORDS],
    places: usize,
}

impl Table {
    pub fn new() -> Table {
        Table {
            words: [0; WORDS],
            places: 0,
        }
    }

    // A lay-out that is refused writes nothing.
    pub fn lay_out(&mut self, places: usize) {
        self.places = places;
        let _ = layout::lay_out(&mut self.words, places);
    }

    pub fn print(&self, rt: &impl Print) {
        print(rt, &self.words, self.places);
    }
}

// The rest of a line: the words of a table of so many places.
pub fn print(rt: &impl Print, t: &[u32], places: usize) {
    if places <= LinkedTable::LARGEST
        && let Some(words) = t.get(..LinkedTable::size(places))
    {
        report::words(rt, words);
    }
    report::text(rt, b"\n");
}
