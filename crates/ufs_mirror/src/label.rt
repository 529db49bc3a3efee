// The label in the last sector of a leg.
ghost use Rattle.std.specs.Prelude.{◌≡◌, ◌⊎◌, ◌<◌, ◌≤◌, ◌^◌, length};
ghost use Rattle.ufs_mirror.specs.Joined;
ghost use Rattle.ufs_mirror.specs.Labels.{generation};

use ufs_base::SECTOR;

// Half of all generations.
const HALF: u64 = 1 << 63;

const MAGIC: [u8; 8] = [117, 70, 83, 77, 73, 82, 48, 49];

// The label with this generation.
pub(crate) fn label(generation: u64) -> [u8; SECTOR]
    ensures { result ≡ Rattle.ufs_mirror.specs.Labels.label generation }
{
    let mut bytes = [0; SECTOR];
    bytes[..8].copy_from_slice(&MAGIC);
    bytes[8..16].copy_from_slice(&generation.to_le_bytes());
    bytes
}

// The generation of a label, and 0 of what is no label.
pub(crate) fn generation(bytes: &[u8; SECTOR]) -> u64
    ensures { result ≡ Rattle.ufs_mirror.specs.Labels.generation bytes.now }
{
    let mut number = [0; 8];
    number.copy_from_slice(&bytes[8..16]);
    let number = u64::from_le_bytes(number);
    if *bytes == label(number) { number } else { 0 }
}

// The generation that both legs get after this one. They begin anew once half of them are used up.
pub(crate) fn next_generation(number: u64) -> u64
    ensures number { result ≡ Joined.next_generation number }
    ensures some { 0 < result }
    ensures half { result ≤ 2 ^ 63 }
{
    if number < HALF { number + 1 } else { 1 }
}

// The greater of two generations.
pub(crate) fn greater_of(one: u64, other: u64) -> u64
    ensures one { one ≤ result }
    ensures other { other ≤ result }
    ensures either { (result ≡ one) ⊎ (result ≡ other) }
{
    if one < other { other } else { one }
}
