// The linked table's kind, and its words by row and field: no other crate works out where a word stands.
// The functions on a table rest on its size (`Sized`), which the calls offered outside have tested.
#![tactic(auto)]

ghost use Rattle.std.specs.Prelude.{◌≡◌, ◌<◌, ◌≤◌, get_or};
ghost use Rattle.table.specs.Kind as kind;
ghost use Rattle.table.specs.Regions.{Sized, Writes, item_word, client_word, count_word, bucket_word, ticket_word, set_header, set_item, set_client, set_count, set_bucket, set_ticket};

// The table whose requests and clients are linked both ways.
#[derive(Clone, Copy)]
pub struct LinkedTable {}

// A ticket, as an item row holds it.
pub type Ticket = u32;

impl LinkedTable {
    pub const MARK: u32 = 0x484C_0001;

    pub const LARGEST: usize = 1000;

    pub const NONE: u32 = 4_294_967_295;

    // Words of the header and of a row of each kind; a bucket is one word.
    pub const HEADER_WORDS: usize = 16;

    pub const ITEM_WORDS: usize = 6;

    pub const CLIENT_WORDS: usize = 7;

    pub const COUNT_WORDS: usize = 2;

    // Words for each place of the window: of the regions before the count rows, before the buckets, and of all.
    const TO_COUNTS: usize = Self::ITEM_WORDS + Self::CLIENT_WORDS;

    const TO_BUCKETS: usize = Self::TO_COUNTS + Self::COUNT_WORDS;

    pub const PLACE_WORDS: usize = Self::TO_BUCKETS + 1;

    // Words of the header.
    pub const MARK_AT: usize = 0;

    pub const PLACES_AT: usize = 1;

    pub const REQUESTS_AT: usize = 2;

    pub const CLIENTS_AT: usize = 3;

    pub const FRONT_AT: usize = 4;

    pub const BACK_AT: usize = 5;

    pub const LIGHTEST_AT: usize = 6;

    pub const HEAVIEST_AT: usize = 7;

    pub const FREE_ITEM_AT: usize = 8;

    pub const FREE_CLIENT_AT: usize = 9;

    pub const ZEROS_AT: usize = 10;

    // Words of an item row.
    pub const OWNER: usize = 0;

    pub const TICKET: usize = 1;

    pub const EARLIER: usize = 2;

    pub const LATER: usize = 3;

    pub const OWN_EARLIER: usize = 4;

    pub const OWN_LATER: usize = 5;

    // Words of a client row.
    pub const ID: usize = 0;

    pub const COUNT: usize = 1;

    pub const LIGHTER: usize = 2;

    pub const HEAVIER: usize = 3;

    pub const OLDEST: usize = 4;

    pub const NEWEST: usize = 5;

    pub const NEXT_IN_BUCKET: usize = 6;

    // Words of a count row.
    pub const LIGHT_END: usize = 0;

    pub const HEAVY_END: usize = 1;

    // Whether a table may have q places.
    pub fn in_range(q: usize) -> bool
        ensures { result ≡ kind.in_range q }
    {
        1 <= q && q <= Self::LARGEST
    }

    // The words of a table of q places.
    pub fn size(q: usize) -> usize
        requires { q ≤ kind.largest }
        ensures { result ≡ kind.size q }
    {
        Self::HEADER_WORDS + Self::PLACE_WORDS * q
    }

    // Where the client rows and the count rows begin.
    pub fn clients_from(q: usize) -> usize
        requires { q ≤ kind.largest }
        ensures { result ≡ kind.clients_from q }
    {
        Self::HEADER_WORDS + Self::ITEM_WORDS * q
    }

    pub fn counts_from(q: usize) -> usize
        requires { q ≤ kind.largest }
        ensures { result ≡ kind.counts_from q }
    {
        Self::HEADER_WORDS + Self::TO_COUNTS * q
    }

    // Where a row stands.
    pub fn item_at(r: u32) -> usize
        requires { r < kind.largest }
        ensures { result ≡ kind.item_at r 0 }
    {
        Self::HEADER_WORDS + Self::ITEM_WORDS * (r as usize)
    }

    pub fn client_at(q: usize, r: u32) -> usize
        requires { (q ≤ kind.largest) × (r < q) }
        ensures { result ≡ kind.client_at q r 0 }
    {
        Self::clients_from(q) + Self::CLIENT_WORDS * (r as usize)
    }
}

// A word of the header.
pub fn header(t: &[u32], q: usize, f: usize) -> u32
    requires sized { Sized q t.now }
    requires f_lt_header_words { f < kind.header_words }
    ensures { result ≡ get_or t.now f 0 }
{
    t[f]
}

pub fn set_header(t: &mut [u32], q: usize, f: usize, v: u32)
    requires sized { Sized q t.old }
    requires f_lt_header_words { f < kind.header_words }
    ensures writes { Writes q t.old t.new (set_header f v) }
    ensures still_sized { Sized q t.new }
{
    t[f] = v;
}

// A word of an item row.
pub fn item(t: &[u32], q: usize, r: u32, f: usize) -> u32
    requires sized { Sized q t.now }
    requires r_lt_q { (r < q) × (f < kind.item_words) }
    ensures { result ≡ item_word t.now r f }
{
    t[LinkedTable::HEADER_WORDS + LinkedTable::ITEM_WORDS * (r as usize) + f]
}

pub fn set_item(t: &mut [u32], q: usize, r: u32, f: usize, v: u32)
    requires sized { Sized q t.old }
    requires r_lt_q { (r < q) × (f < kind.item_words) }
    ensures writes { Writes q t.old t.new (set_item r f v) }
    ensures still_sized { Sized q t.new }
{
    t[LinkedTable::HEADER_WORDS + LinkedTable::ITEM_WORDS * (r as usize) + f] = v;
}

// The ticket of an item row.
pub fn ticket(t: &[u32], q: usize, r: u32) -> Ticket
    requires sized { Sized q t.now }
    requires r_lt_q { r < q }
    ensures { result ≡ ticket_word t.now r }
{
    item(t, q, r, LinkedTable::TICKET)
}

pub fn set_ticket(t: &mut [u32], q: usize, r: u32, v: Ticket)
    requires sized { Sized q t.old }
    requires r_lt_q { r < q }
    ensures writes { Writes q t.old t.new (set_ticket r v) }
    ensures still_sized { Sized q t.new }
{
    set_item(t, q, r, LinkedTable::TICKET, v);
}

// A word of a client row.
pub fn client(t: &[u32], q: usize, r: u32, f: usize) -> u32
    requires sized { Sized q t.now }
    requires r_lt_q { (r < q) × (f < kind.client_words) }
    ensures { result ≡ client_word t.now q r f }
{
    t[LinkedTable::HEADER_WORDS
        + LinkedTable::ITEM_WORDS * q
        + LinkedTable::CLIENT_WORDS * (r as usize)
        + f]
}

pub fn set_client(t: &mut [u32], q: usize, r: u32, f: usize, v: u32)
    requires sized { Sized q t.old }
    requires r_lt_q { (r < q) × (f < kind.client_words) }
    ensures writes { Writes q t.old t.new (set_client r f v) }
    ensures still_sized { Sized q t.new }
{
    t[LinkedTable::HEADER_WORDS
        + LinkedTable::ITEM_WORDS * q
        + LinkedTable::CLIENT_WORDS * (r as usize)
        + f] = v;
}

// A word of count row k: the ends of the group of count k + 1.
pub fn count_end(t: &[u32], q: usize, k: usize, f: usize) -> u32
    requires sized { Sized q t.now }
    requires k_lt_q { (k < q) × (f < kind.count_words) }
    ensures { result ≡ count_word t.now q k f }
{
    t[LinkedTable::HEADER_WORDS + LinkedTable::TO_COUNTS * q + LinkedTable::COUNT_WORDS * k + f]
}

pub fn set_count_end(t: &mut [u32], q: usize, k: usize, f: usize, v: u32)
    requires sized { Sized q t.old }
    requires k_lt_q { (k < q) × (f < kind.count_words) }
    ensures writes { Writes q t.old t.new (set_count k f v) }
    ensures still_sized { Sized q t.new }
{
    t[LinkedTable::HEADER_WORDS + LinkedTable::TO_COUNTS * q + LinkedTable::COUNT_WORDS * k + f] =
        v;
}

// The first row of a bucket.
pub fn bucket(t: &[u32], q: usize, b: usize) -> u32
    requires sized { Sized q t.now }
    requires b_lt_q { b < q }
    ensures { result ≡ bucket_word t.now q b }
{
    t[LinkedTable::HEADER_WORDS + LinkedTable::TO_BUCKETS * q + b]
}

pub fn set_bucket(t: &mut [u32], q: usize, b: usize, v: u32)
    requires sized { Sized q t.old }
    requires b_lt_q { b < q }
    ensures writes { Writes q t.old t.new (set_bucket b v) }
    ensures still_sized { Sized q t.new }
{
    t[LinkedTable::HEADER_WORDS + LinkedTable::TO_BUCKETS * q + b] = v;
}
