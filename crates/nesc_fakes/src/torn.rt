ghost use Rattle.std.specs.Prelude.{◌≡◌};
ghost use Rattle.nesc_fakes.specs.Torn.{drawn, torn_block};

use nesc_base::Block;

/// The number that the generator draws after this one.
pub fn drawn(x: u64) -> u64
    ensures { result ≡ drawn x }
{
    let x = x ^ (x << 13);
    let x = x ^ (x >> 7);
    x ^ (x << 17)
}

/// The block that has the eight bytes of a number over and over.
pub fn torn_block(x: u64) -> Block
    ensures { result ≡ torn_block x }
{
    Block::repeated(&x.to_le_bytes())
}
