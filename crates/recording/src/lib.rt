// The recording's format: the numbers of its blocks as constants, and their check.
#![tactic(auto)]

ghost use Rattle.std.specs.Prelude.{◌≡◌, ◌+◌, ◌≤◌, length, drop};
ghost use Rattle.recording.specs.Kind as kind;
ghost use Rattle.recording.specs.Block.{two_bytes, weighed, check_of};

#[derive(Clone, Copy)]
pub struct Block {}

impl Block {
    // The most commands of a block.
    pub const COMMANDS: usize = 56;

    // Where it has the number of commands used, its own number and its check.
    pub const USED_AT: usize = 504;

    pub const NUMBER_AT: usize = 506;

    pub const CHECK_AT: usize = 508;

    pub const BYTES: usize = 512;

    // The most blocks of a recording, and the most commands.
    pub const BLOCKS: u64 = 65536;

    pub const MOST_COMMANDS: u64 = Block::COMMANDS as u64 * Block::BLOCKS;
}

// Two bytes, lowest first.
pub fn number(s: &[u8], at: usize) -> u32
    requires { at + 2 ≤ length s.now }
    ensures { result ≡ two_bytes (drop at s.now) }
{
    u32::from(u16::from_le_bytes([s[at], s[at + 1]]))
}

// The most bytes of a part of the check.
const SPAN: usize = 256;

// The part of the check that is of these bytes, the first of which has the place `from`. With places counted from there a term fits into
// 16 bits, and so do the sums of the terms' low bytes, of their high bytes and of the bytes themselves: that is twice as quick as a sum in
// 32 bits.
fn part(s: &[u8], from: u32) -> u32
    requires { (from ≤ 256) × (length s.now ≤ 256) }
    ensures { result ≡ weighed from s.now }
{
    let mut low: u16 = 0;
    let mut high: u16 = 0;
    let mut all: u16 = 0;
    for (i, byte) in s.iter().enumerate() {
        let byte = u16::from(*byte);
        let term = (i as u16 + 1) * byte;
        low += term % 256;
        high += term / 256;
        all += byte;
    }
    u32::from(low) + 256 * u32::from(high) + from * u32::from(all)
}

// The sum over the first 508 bytes of (place + 1) × byte.
pub fn check(b: &[u8]) -> u32
    requires { kind.check_at ≤ length b.now }
    ensures { result ≡ check_of b.now }
{
    part(&b[..SPAN], 0) + part(&b[SPAN..Block::CHECK_AT], SPAN as u32)
}
