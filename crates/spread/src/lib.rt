// The spread table, and the bucket of an id.
#![tactic(auto)]

ghost use Rattle.std.specs.Prelude.{◌≡◌, ◌+◌, ◌*◌, ◌≤◌, ◌<◌};
ghost use Rattle.table.specs.Kind as kind;
ghost use Rattle.rules.specs.Spread.{spread_at, bucket, IsSpread};

mod numbers;

// The spread table by value. A use of the constant writes it out anew, so an outer call makes it once and lends it down.
// Its numbers may be read, and whoever has them from elsewhere may make one: whatever makes one is held to the rule.
#[derive(Clone, Copy)]
pub struct Spread {
    pub numbers: [u32; 1024],
    pub ghost by_rule: { IsSpread numbers },
}

pub fn table() -> Spread {
    Spread {
        numbers: numbers::SPREAD,
    }
}

impl Spread {
    // The entry that a byte picks out of block j.
    fn entry(&self, j: usize, byte: u32) -> u32
        requires { (j < 4) × (byte < 256) }
        ensures { result ≡ spread_at (256 * j + byte) }
    {
        self.numbers[256 * j + byte as usize]
    }

    // The bucket of an id among q. The sum of the four entries passes 32 bits and half of it does not: the
    // remainder is that of the half, mended, since a division in 64 bits costs far more than one in 32.
    pub fn bucket_in(&self, id: u32, q: usize) -> usize
        requires { (0 < q) × (q ≤ kind.largest) }
        ensures value { result ≡ bucket q id }
        ensures upper_bound { result < q }
    {
        let a = self.entry(0, id % 256) as usize;
        let b = self.entry(1, id / 256 % 256) as usize;
        let c = self.entry(2, id / 65_536 % 256) as usize;
        let d = self.entry(3, id / 16_777_216 % 256) as usize;
        let sum = a + b + c + d;
        let x = 2 * ((sum / 2) as u32 % q as u32) as usize + sum % 2;
        if x < q { x } else { x - q }
    }
}
