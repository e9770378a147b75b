//! Check sequences of bytes by chance, against a division of polynomials.
use crate::expect::expect_same_at;
use docsis_wire::{check_sequence, frame_check_sequence};

/// For each length from 0 to 64 the sums of 64 header check sequences and of 64 frame check
/// sequences, modulo 2^32, of the bytes that `Chance` gives one after another from 1 on.
/// `scripts/plain-checks` works them out and compares.
const SUMS: [(u32, u32); 65] = [
    (0x00000000, 0x00000000),
    (0x001f4d72, 0x2a58fd8f),
    (0x0023195e, 0x1a4b6043),
    (0x002391a7, 0xefb2efa2),
    (0x001fdc7c, 0xc75af8d3),
    (0x001e5b9c, 0xaa5172e4),
    (0x001f6333, 0x798f42bf),
    (0x00216e60, 0xc344ecf0),
    (0x001ea335, 0xab11a9c3),
    (0x001d8a29, 0xb8bf2f13),
    (0x00233b8b, 0x16d6c19d),
    (0x0021547c, 0x4aeb3d14),
    (0x00216f3d, 0x3b5d4914),
    (0x00202408, 0x7baaad0b),
    (0x00203248, 0x959b40ef),
    (0x001f4cef, 0xd7c32a52),
    (0x002032a4, 0x149af934),
    (0x0021e05b, 0xec788407),
    (0x001e82eb, 0x3d6d5418),
    (0x00200022, 0xe4b1d4a4),
    (0x001f26bb, 0x9e0ced15),
    (0x001e114b, 0x4782bc0e),
    (0x001ed060, 0xc8c9a6c8),
    (0x0021b115, 0x5324400b),
    (0x001c6f03, 0xcad4a40e),
    (0x00215c3b, 0xb3e0b104),
    (0x00211ef6, 0xf1362f47),
    (0x002037e1, 0x249cd8cc),
    (0x002211ba, 0xf23628be),
    (0x001fa927, 0x0491f656),
    (0x001fc2a7, 0x04700084),
    (0x002262c5, 0xdd192863),
    (0x001d8fb0, 0x245399ce),
    (0x001fef63, 0xb1396cea),
    (0x0022fc0e, 0xbe724178),
    (0x002018d8, 0x1bae88f7),
    (0x0021bd0f, 0x4d92a163),
    (0x001d20e6, 0x185741c8),
    (0x0021aa44, 0x1d18c8be),
    (0x001fce0d, 0xe0e64df6),
    (0x0020d984, 0xbde9c8e8),
    (0x001ddc2b, 0x199a986f),
    (0x001d7407, 0xb3b9c5b1),
    (0x001cfd06, 0x0d2bded3),
    (0x001eabf5, 0x24a42497),
    (0x001f72d6, 0x5a54c402),
    (0x001e9504, 0x58981770),
    (0x00200661, 0xb117aff6),
    (0x001e9b3f, 0x00f702bd),
    (0x001a7a1c, 0x9916afe8),
    (0x001fb05b, 0x27b585f8),
    (0x00209729, 0x3ea38922),
    (0x001e73e0, 0xa7e4deb4),
    (0x001f0aa7, 0x2f7838f7),
    (0x00214265, 0xb212ac2a),
    (0x001ba3ee, 0x2b31d73e),
    (0x001edc29, 0x4c17bf99),
    (0x00224ef6, 0xf57e450d),
    (0x002025d7, 0x0eb58dd2),
    (0x001f6ff4, 0x1337ad59),
    (0x001cb4b6, 0xccec05d7),
    (0x001cb821, 0x03ed2cb1),
    (0x00229e7b, 0x1495e6a8),
    (0x0020f196, 0xf89b4f15),
    (0x0020e11b, 0xbcd414f2),
];

/// The sum of eight frame check sequences, modulo 2^32: of this many bytes and of up to seven more,
/// the first ones that `Chance` gives. `scripts/plain-checks` works them out and compares.
const LONG_SUMS: [(usize, u32); 21] = [
    (64, 0x9459b3c0),
    (72, 0x9d526c83),
    (80, 0xa9880425),
    (88, 0x0dc146f8),
    (96, 0x4b45f63a),
    (104, 0xb5ed43e7),
    (112, 0xb32effbd),
    (120, 0x1cdf7aca),
    (128, 0x86bbb7f1),
    (136, 0x98203e4d),
    (144, 0x80411a70),
    (152, 0xa0ac44f0),
    (160, 0xf3950d97),
    (168, 0xb79c857e),
    (176, 0xd5d04044),
    (184, 0x9ef164e3),
    (192, 0xd369a5b8),
    (200, 0xaabd9d2e),
    (792, 0x331e8abd),
    (1511, 0x0fc2b348),
    (1993, 0xfcbc25d0),
];

/// Bytes that look like chance: each is the upper byte of a number of 32 bits that follows from the
/// one before.
#[derive(Drop)]
struct Chance {
    number: u32,
}

impl Chance {
    fn byte(&mut self) -> u8 {
        self.number = self
            .number
            .wrapping_mul(1_664_525)
            .wrapping_add(1_013_904_223);
        (self.number >> 24) as u8
    }
}

/// The sums of 64 sequences each, of bytes of this length, which is at most 64.
fn sums(chance: &mut Chance, length: usize) -> (u32, u32) {
    let mut sums = (0_u32, 0_u32);
    for _ in 0..64 {
        let mut bytes = [0; 64];
        for byte in bytes.iter_mut().take(length) {
            *byte = chance.byte();
        }
        let Some(bytes) = bytes.get(..length) else {
            return sums;
        };
        sums.0 = sums.0.wrapping_add(u32::from(check_sequence(bytes)));
        sums.1 = sums.1.wrapping_add(frame_check_sequence(bytes));
    }
    sums
}

#[test]
fn are_what_the_division_leaves(rt: HostRuntime) {
    let mut chance = Chance { number: 1 };
    for (length, wanted) in SUMS.iter().enumerate() {
        let found = sums(&mut chance, length);
        expect_same_at(&rt, "bytes by chance", length, found, *wanted);
    }
}

/// The sum of the frame check sequences of the first bytes, of this many and of up to seven more.
fn long_sum(bytes: &[u8], length: usize) -> u32 {
    let mut sum = 0_u32;
    for more in 0..8 {
        let Some(front) = bytes.get(..length.saturating_add(more)) else {
            return 0;
        };
        sum = sum.wrapping_add(frame_check_sequence(front));
    }
    sum
}

/// Of each length around those from which on words are taken away, and of some long ones.
#[test]
fn are_what_the_division_leaves_of_long_messages(rt: HostRuntime) {
    let mut chance = Chance { number: 1 };
    let mut bytes = [0; 2000];
    for byte in bytes.iter_mut() {
        *byte = chance.byte();
    }
    for (length, wanted) in LONG_SUMS.iter() {
        let found = long_sum(&bytes, *length);
        expect_same_at(&rt, "long messages by chance", *length, found, *wanted);
    }
}
